ghost use Rattle.std.specs.Prelude.{◌≡◌, IsTrue, true};
ghost use Rattle.cap_leaf.specs.View.{table_view};
ghost use Rattle.cap_trees.specs.Tables.{table_of};
ghost use Rattle.cap_trees.specs.Tests.{Differ, Sound, bounded_in};
ghost use Rattle.cap_leaf.specs.Schema.{all};
ghost use Rattle.cap_leaf.specs.declared.kinds.Kind.{Kind};

use cap_leaf::{CodeList, Kind, LeafKind, Node, Shape};

macro_rules! node {
    ($tag:expr, $shape:expr) => {
        Node { tag: $tag, least: 1, most: 1, shape: $shape }
    };
}

macro_rules! many {
    ($tag:expr, $most:expr, $shape:expr) => {
        Node { tag: $tag, least: 1, most: $most, shape: $shape }
    };
}

macro_rules! leaf {
    ($tag:expr, $kind:expr) => {
        Node { tag: $tag, least: 1, most: 1, shape: Shape::Leaf($kind) }
    };
}

macro_rules! maybe {
    ($tag:expr, $kind:expr) => {
        Node { tag: $tag, least: 0, most: 1, shape: Shape::Leaf($kind) }
    };
}

macro_rules! response {
    () => {
        Node { tag: "Rspn", least: 1, most: 1, shape: Shape::Leaf(LeafKind::Code(CodeList::Response)) }
    };
}

macro_rules! header {
    ($kind:expr) => {
        [
            leaf!("MsgFctn", LeafKind::Code(CodeList::Function($kind))),
            leaf!("PrtcolVrsn", LeafKind::Code(CodeList::Protocol(1))),
            leaf!("XchgId", LeafKind::Num(10)),
            maybe!("ReTrnsmssnCntr", LeafKind::Num(3)),
            leaf!("CreDtTm", LeafKind::DateTime),
            node!("InitgPty", Shape::All(&PARTY)),
            node!("RcptPty", Shape::All(&PARTY)),
        ]
    };
}

const PARTY: [Node; 1] = [leaf!("Id", LeafKind::Ident)];

const BARE_HEADER: [Node; 6] = [
    leaf!("PrtcolVrsn", LeafKind::Code(CodeList::Protocol(1))),
    leaf!("XchgId", LeafKind::Num(10)),
    maybe!("ReTrnsmssnCntr", LeafKind::Num(3)),
    leaf!("CreDtTm", LeafKind::DateTime),
    node!("InitgPty", Shape::All(&PARTY)),
    node!("RcptPty", Shape::All(&PARTY)),
];

const TOTALS: [Node; 4] = [
    leaf!("SaleNb", LeafKind::Num(10)),
    leaf!("SaleAmt", LeafKind::Sum),
    leaf!("CxlNb", LeafKind::Num(10)),
    leaf!("CxlAmt", LeafKind::Sum),
];

const SALE: [Node; 4] = [
    leaf!("TxRef", LeafKind::Num(10)),
    leaf!("TtlAmt", LeafKind::Amount),
    leaf!("PAN", LeafKind::Account),
    leaf!("AuthstnCd", LeafKind::Code6),
];

const VOID: [Node; 1] = [leaf!("TxRef", LeafKind::Num(10))];

const CANCEL: [Node; 2] = [
    leaf!("TxRef", LeafKind::Num(10)),
    leaf!("TtlAmt", LeafKind::Amount),
];

const PERIOD: [Node; 2] = [
    leaf!("Prd", LeafKind::Num(10)),
    node!("Ttls", Shape::All(&TOTALS)),
];

const ENDED: [Node; 2] = [
    node!("Sale", Shape::All(&SALE)),
    node!("Void", Shape::All(&VOID)),
];

const ITEM: [Node; 4] = [
    node!("Sale", Shape::All(&SALE)),
    node!("Void", Shape::All(&VOID)),
    node!("Cxl", Shape::All(&CANCEL)),
    node!("Cls", Shape::All(&PERIOD)),
];

const ACTION: [Node; 4] = [
    leaf!("Tp", LeafKind::Code(CodeList::Act)),
    leaf!("DataSetTp", LeafKind::Code(CodeList::AnySet)),
    leaf!("StartDtTm", LeafKind::DateTime),
    leaf!("PrdMin", LeafKind::Num(6)),
];

const PAIR: [Node; 2] = [leaf!("Key", LeafKind::Ident), leaf!("Val", LeafKind::Ident)];

const HEADER_CAAA001: [Node; 7] = header!(Kind::Caaa001);

const BODY_CAAA001: [Node; 2] = [
    leaf!("TtlAmt", LeafKind::Amount),
    leaf!("PAN", LeafKind::Account),
];

const INSIDE_CAAA001: [Node; 2] = [
    node!("Hdr", Shape::All(&HEADER_CAAA001)),
    node!("AuthstnReq", Shape::All(&BODY_CAAA001)),
];

static CAAA001: [Node; 1] = [node!("AccptrAuthstnReq", Shape::All(&INSIDE_CAAA001))];

const HEADER_CAAA002: [Node; 7] = header!(Kind::Caaa002);

const BODY_CAAA002: [Node; 2] = [response!(), leaf!("AuthstnCd", LeafKind::Code6)];

const INSIDE_CAAA002: [Node; 2] = [
    node!("Hdr", Shape::All(&HEADER_CAAA002)),
    node!("AuthstnRspn", Shape::All(&BODY_CAAA002)),
];

static CAAA002: [Node; 1] = [node!("AccptrAuthstnRspn", Shape::All(&INSIDE_CAAA002))];

const HEADER_CAAA003: [Node; 7] = header!(Kind::Caaa003);

const BODY_CAAA003: [Node; 1] = [node!("Tx", Shape::OneOf(&ENDED))];

const INSIDE_CAAA003: [Node; 2] = [
    node!("Hdr", Shape::All(&HEADER_CAAA003)),
    node!("CmpltnAdvc", Shape::All(&BODY_CAAA003)),
];

static CAAA003: [Node; 1] = [node!("AccptrCmpltnAdvc", Shape::All(&INSIDE_CAAA003))];

const HEADER_CAAA004: [Node; 7] = header!(Kind::Caaa004);

const BODY_CAAA004: [Node; 1] = [response!()];

const INSIDE_CAAA004: [Node; 2] = [
    node!("Hdr", Shape::All(&HEADER_CAAA004)),
    node!("CmpltnAdvcRspn", Shape::All(&BODY_CAAA004)),
];

static CAAA004: [Node; 1] = [node!("AccptrCmpltnAdvcRspn", Shape::All(&INSIDE_CAAA004))];

const HEADER_CAAA005: [Node; 7] = header!(Kind::Caaa005);

const BODY_CAAA005: [Node; 1] = [leaf!("TtlAmt", LeafKind::Amount)];

const INSIDE_CAAA005: [Node; 2] = [
    node!("Hdr", Shape::All(&HEADER_CAAA005)),
    node!("CxlReq", Shape::All(&BODY_CAAA005)),
];

static CAAA005: [Node; 1] = [node!("AccptrCxlReq", Shape::All(&INSIDE_CAAA005))];

const HEADER_CAAA006: [Node; 7] = header!(Kind::Caaa006);

const BODY_CAAA006: [Node; 1] = [response!()];

const INSIDE_CAAA006: [Node; 2] = [
    node!("Hdr", Shape::All(&HEADER_CAAA006)),
    node!("CxlRspn", Shape::All(&BODY_CAAA006)),
];

static CAAA006: [Node; 1] = [node!("AccptrCxlRspn", Shape::All(&INSIDE_CAAA006))];

const HEADER_CAAA007: [Node; 7] = header!(Kind::Caaa007);

const BODY_CAAA007: [Node; 2] = [
    leaf!("TxRef", LeafKind::Num(10)),
    leaf!("TtlAmt", LeafKind::Amount),
];

const INSIDE_CAAA007: [Node; 2] = [
    node!("Hdr", Shape::All(&HEADER_CAAA007)),
    node!("CxlAdvc", Shape::All(&BODY_CAAA007)),
];

static CAAA007: [Node; 1] = [node!("AccptrCxlAdvc", Shape::All(&INSIDE_CAAA007))];

const HEADER_CAAA008: [Node; 7] = header!(Kind::Caaa008);

const BODY_CAAA008: [Node; 1] = [response!()];

const INSIDE_CAAA008: [Node; 2] = [
    node!("Hdr", Shape::All(&HEADER_CAAA008)),
    node!("CxlAdvcRspn", Shape::All(&BODY_CAAA008)),
];

static CAAA008: [Node; 1] = [node!("AccptrCxlAdvcRspn", Shape::All(&INSIDE_CAAA008))];

const HEADER_CAAA009: [Node; 7] = header!(Kind::Caaa009);

const BODY_CAAA009: [Node; 2] = [
    leaf!("Prd", LeafKind::Num(10)),
    node!("Ttls", Shape::All(&TOTALS)),
];

const INSIDE_CAAA009: [Node; 2] = [
    node!("Hdr", Shape::All(&HEADER_CAAA009)),
    node!("RcncltnReq", Shape::All(&BODY_CAAA009)),
];

static CAAA009: [Node; 1] = [node!("AccptrRcncltnReq", Shape::All(&INSIDE_CAAA009))];

const HEADER_CAAA010: [Node; 7] = header!(Kind::Caaa010);

const BODY_CAAA010: [Node; 3] = [
    response!(),
    leaf!("Prd", LeafKind::Num(10)),
    node!("Ttls", Shape::All(&TOTALS)),
];

const INSIDE_CAAA010: [Node; 2] = [
    node!("Hdr", Shape::All(&HEADER_CAAA010)),
    node!("RcncltnRspn", Shape::All(&BODY_CAAA010)),
];

static CAAA010: [Node; 1] = [node!("AccptrRcncltnRspn", Shape::All(&INSIDE_CAAA010))];

const HEADER_CAAA011: [Node; 7] = header!(Kind::Caaa011);

const BODY_CAAA011: [Node; 1] = [many!("Itm", 100, Shape::OneOf(&ITEM))];

const INSIDE_CAAA011: [Node; 2] = [
    node!("Hdr", Shape::All(&HEADER_CAAA011)),
    node!("BtchTrf", Shape::All(&BODY_CAAA011)),
];

static CAAA011: [Node; 1] = [node!("AccptrBtchTrf", Shape::All(&INSIDE_CAAA011))];

const HEADER_CAAA012: [Node; 7] = header!(Kind::Caaa012);

const BODY_CAAA012: [Node; 2] = [response!(), leaf!("LastItm", LeafKind::Num(10))];

const INSIDE_CAAA012: [Node; 2] = [
    node!("Hdr", Shape::All(&HEADER_CAAA012)),
    node!("BtchTrfRspn", Shape::All(&BODY_CAAA012)),
];

static CAAA012: [Node; 1] = [node!("AccptrBtchTrfRspn", Shape::All(&INSIDE_CAAA012))];

const HEADER_CAAA013: [Node; 7] = header!(Kind::Caaa013);

const BODY_CAAA013: [Node; 1] = [leaf!("LastItm", LeafKind::Num(10))];

const INSIDE_CAAA013: [Node; 2] = [
    node!("Hdr", Shape::All(&HEADER_CAAA013)),
    node!("DgnstcReq", Shape::All(&BODY_CAAA013)),
];

static CAAA013: [Node; 1] = [node!("AccptrDgnstcReq", Shape::All(&INSIDE_CAAA013))];

const HEADER_CAAA014: [Node; 7] = header!(Kind::Caaa014);

const BODY_CAAA014: [Node; 2] = [response!(), leaf!("LastItm", LeafKind::Num(10))];

const INSIDE_CAAA014: [Node; 2] = [
    node!("Hdr", Shape::All(&HEADER_CAAA014)),
    node!("DgnstcRspn", Shape::All(&BODY_CAAA014)),
];

static CAAA014: [Node; 1] = [node!("AccptrDgnstcRspn", Shape::All(&INSIDE_CAAA014))];

const HEADER_CAAA015: [Node; 7] = header!(Kind::Caaa015);

const BODY_CAAA015: [Node; 3] = [
    leaf!("RjctRsn", LeafKind::Code(CodeList::Reason)),
    maybe!("XpctdItm", LeafKind::Num(10)),
    maybe!("FltPlc", LeafKind::Num(10)),
];

const INSIDE_CAAA015: [Node; 2] = [
    node!("Hdr", Shape::All(&HEADER_CAAA015)),
    node!("Rjct", Shape::All(&BODY_CAAA015)),
];

static CAAA015: [Node; 1] = [node!("AccptrRjctn", Shape::All(&INSIDE_CAAA015))];

const BODY_CATM001: [Node; 4] = [
    leaf!("DataSetReqrd", LeafKind::Code(CodeList::Wanted)),
    leaf!("VrsnInForce", LeafKind::Num(10)),
    leaf!("StgdVrsn", LeafKind::Num(10)),
    leaf!("StgdParts", LeafKind::Num(3)),
];

const INSIDE_CATM001: [Node; 2] = [
    node!("Hdr", Shape::All(&BARE_HEADER)),
    node!("Sts", Shape::All(&BODY_CATM001)),
];

static CATM001: [Node; 1] = [node!("StsRpt", Shape::All(&INSIDE_CATM001))];

const BODY_CATM002: [Node; 1] = [many!("Actn", 8, Shape::All(&ACTION))];

const INSIDE_CATM002: [Node; 2] = [
    node!("Hdr", Shape::All(&BARE_HEADER)),
    node!("MgmtPlan", Shape::All(&BODY_CATM002)),
];

static CATM002: [Node; 1] = [node!("MgmtPlanRplcmnt", Shape::All(&INSIDE_CATM002))];

const BODY_CATM003: [Node; 4] = [
    leaf!("Vrsn", LeafKind::Num(10)),
    leaf!("Part", LeafKind::Num(3)),
    leaf!("Parts", LeafKind::Num(3)),
    many!("Row", 16, Shape::All(&PAIR)),
];

const INSIDE_CATM003: [Node; 2] = [
    node!("Hdr", Shape::All(&BARE_HEADER)),
    node!("AccptrCfgtn", Shape::All(&BODY_CATM003)),
];

static CATM003: [Node; 1] = [node!("AccptrCfgtnUpd", Shape::All(&INSIDE_CATM003))];

const BODY_CATM004: [Node; 3] = [
    leaf!("RjctRsn", LeafKind::Code(CodeList::Reason)),
    maybe!("XpctdItm", LeafKind::Num(10)),
    maybe!("FltPlc", LeafKind::Num(10)),
];

const INSIDE_CATM004: [Node; 2] = [
    node!("Hdr", Shape::All(&BARE_HEADER)),
    node!("Rjct", Shape::All(&BODY_CATM004)),
];

static CATM004: [Node; 1] = [node!("TermnlMgmtRjctn", Shape::All(&INSIDE_CATM004))];

/// The table of a message, whose one row is its message element.
pub fn schema_of(kind: Kind) -> &'static [Node]
    ensures { table_view result.now ≡ table_of kind }
{
    match kind {
        Kind::Caaa001 => &CAAA001,
        Kind::Caaa002 => &CAAA002,
        Kind::Caaa003 => &CAAA003,
        Kind::Caaa004 => &CAAA004,
        Kind::Caaa005 => &CAAA005,
        Kind::Caaa006 => &CAAA006,
        Kind::Caaa007 => &CAAA007,
        Kind::Caaa008 => &CAAA008,
        Kind::Caaa009 => &CAAA009,
        Kind::Caaa010 => &CAAA010,
        Kind::Caaa011 => &CAAA011,
        Kind::Caaa012 => &CAAA012,
        Kind::Caaa013 => &CAAA013,
        Kind::Caaa014 => &CAAA014,
        Kind::Caaa015 => &CAAA015,
        Kind::Catm001 => &CATM001,
        Kind::Catm002 => &CATM002,
        Kind::Catm003 => &CATM003,
        Kind::Catm004 => &CATM004,
    }
}

/// True: sibling tags differ in every table, every row can stand as often as it has to, every tag is a name, and every table has fewer
/// than 256 rows.
pub fn schemas_hold() -> bool
    ensures yes { IsTrue result }
    ensures differ { (k : Kind) → Differ (table_of k) }
    ensures sound { (k : Kind) → Sound (table_of k) }
    ensures bounded { (k : Kind) → bounded_in (all (table_of k)) ≡ true }
{
    true
}
