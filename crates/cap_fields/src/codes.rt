ghost use Rattle.std.specs.Prelude.{◌≡◌};
ghost use Rattle.cap_leaf.specs.Trees.{data_of};
ghost use Rattle.cap_fields.specs.Codes.{response_code as response_leaf, reason_code as reason_leaf, wanted_code as wanted_leaf, set_code as set_leaf, set_place as place_of_set, act_code as act_leaf, response_at as response_by_place, reason_at as reason_by_place, set_at as set_by_place, act_at as act_by_place, response_in, reason_in, set_in, act_in};

use crate::read::code_at;
use cap_base::{DataSet, PlanAct, Reason, Response};
use cap_leaf::{CodeList, Leaf, Tree};

/// A response as a leaf.
pub fn response_code(response: Response) -> Leaf
    ensures { result ≡ response_leaf response }
{
    let at = match response {
        Response::Appr => 0,
        Response::Decl => 1,
        Response::Part => 2,
        Response::Tech => 3,
    };
    Leaf::Code {
        list: CodeList::Response,
        at,
    }
}

fn response_by(place: u8) -> Option<Response>
    ensures { result ≡ response_by_place place }
{
    match place {
        0 => Some(Response::Appr),
        1 => Some(Response::Decl),
        2 => Some(Response::Part),
        3 => Some(Response::Tech),
        _ => None,
    }
}

/// The response at a place of a structure. None where none stands there.
pub fn response_at(tree: &Tree, at: u8) -> Option<Response>
    ensures { result ≡ response_in (data_of tree.now) at }
{
    response_by(code_at(tree, at)?)
}

/// A reason as a leaf.
pub fn reason_code(reason: Reason) -> Leaf
    ensures { result ≡ reason_leaf reason }
{
    let at = match reason {
        Reason::Unpr => 0,
        Reason::Imsg => 1,
        Reason::Pars => 2,
        Reason::Secu => 3,
        Reason::Intp => 4,
        Reason::Rcpp => 5,
        Reason::Dpmg => 6,
        Reason::Vers => 7,
        Reason::Msgt => 8,
    };
    Leaf::Code {
        list: CodeList::Reason,
        at,
    }
}

fn reason_by(place: u8) -> Option<Reason>
    ensures { result ≡ reason_by_place place }
{
    match place {
        0 => Some(Reason::Unpr),
        1 => Some(Reason::Imsg),
        2 => Some(Reason::Pars),
        3 => Some(Reason::Secu),
        4 => Some(Reason::Intp),
        5 => Some(Reason::Rcpp),
        6 => Some(Reason::Dpmg),
        7 => Some(Reason::Vers),
        8 => Some(Reason::Msgt),
        _ => None,
    }
}

/// The reason at a place of a structure. None where none stands there.
pub fn reason_at(tree: &Tree, at: u8) -> Option<Reason>
    ensures { result ≡ reason_in (data_of tree.now) at }
{
    reason_by(code_at(tree, at)?)
}

fn set_place(set: DataSet) -> u8
    ensures { result ≡ place_of_set set }
{
    match set {
        DataSet::Aqpr => 0,
        DataSet::Mgtp => 1,
        DataSet::Strp => 2,
    }
}

/// A set of data that a status report asks for, as a leaf.
pub fn wanted_code(set: DataSet) -> Leaf
    ensures { result ≡ wanted_leaf set }
{
    Leaf::Code {
        list: CodeList::Wanted,
        at: set_place(set),
    }
}

/// A set of data of a plan, as a leaf.
pub fn set_code(set: DataSet) -> Leaf
    ensures { result ≡ set_leaf set }
{
    Leaf::Code {
        list: CodeList::AnySet,
        at: set_place(set),
    }
}

fn set_by(place: u8) -> Option<DataSet>
    ensures { result ≡ set_by_place place }
{
    match place {
        0 => Some(DataSet::Aqpr),
        1 => Some(DataSet::Mgtp),
        2 => Some(DataSet::Strp),
        _ => None,
    }
}

/// The set of data at a place of a structure. None where none stands there.
pub fn set_at(tree: &Tree, at: u8) -> Option<DataSet>
    ensures { result ≡ set_in (data_of tree.now) at }
{
    set_by(code_at(tree, at)?)
}

/// What a planned action does, as a leaf.
pub fn act_code(act: PlanAct) -> Leaf
    ensures { result ≡ act_leaf act }
{
    let at = match act {
        PlanAct::Dwnl => 0,
        PlanAct::Upld => 1,
    };
    Leaf::Code {
        list: CodeList::Act,
        at,
    }
}

fn act_by(place: u8) -> Option<PlanAct>
    ensures { result ≡ act_by_place place }
{
    match place {
        0 => Some(PlanAct::Dwnl),
        1 => Some(PlanAct::Upld),
        _ => None,
    }
}

/// What a planned action does, at a place of a structure. None where no such code stands there.
pub fn act_at(tree: &Tree, at: u8) -> Option<PlanAct>
    ensures { result ≡ act_in (data_of tree.now) at }
{
    act_by(code_at(tree, at)?)
}
