ghost use Rattle.std.specs.Prelude.{◌≡◌, ◌<◌, ◌≤◌, true, None, Some, MatchOption, IfSome, drop, length};
ghost use Rattle.cap_leaf.specs.View.{table_view, content_view};
ghost use Rattle.cap_trees.specs.Tests.{bounded_test, bounded_in};
ghost use Rattle.cap_text.specs.Machine.{seek, pick, look, satisfied as satisfied_by, ready as ready_by};
ghost use Rattle.cap_text.specs.Places.{place_in};
ghost use Rattle.cap_text.specs.SeenFrames.{left_of};
ghost use Rattle.cap_text.specs.SeenRows.{found_of};

use crate::frames::Left;
use cap_leaf::Node;

/// The row of a child that may stand next: what may stand after it, and its place.
#[derive(Clone, Copy)]
pub(crate) struct Found {
    pub node: &'static Node,
    pub left: Left,
    pub at: u8,
}

// The row with this tag that may stand next, by the rows from a place on, of which the first has stood that often.
fn seek_row(nodes: &'static [Node], at: u8, count: u8, tag: &[u8]) -> Option<Found>
    requires few { length nodes.now < 256 }
    requires within { at ≤ length nodes.now }
    requires bounded { bounded_test (table_view nodes.now) ≡ true }
    ensures row { MatchOption result (seek (table_view (drop at nodes.now)) at count tag.now ≡ None)
        (λ f. seek (table_view (drop at nodes.now)) at count tag.now ≡ Some (found_of nodes.now f)) }
    ensures bounded { IfSome result (λ f. bounded_in (content_view f.node.now.shape) ≡ true) }
    ensures within { IfSome result (λ f. place_in f.left ≤ length nodes.now) }
    ensures tag { IfSome result (λ f. f.node.now.tag.now ≡ tag.now) }
{
    let mut stood = count;
    for i in at as usize..nodes.len() {
        let node = &nodes[i];
        if node.tag.as_bytes() == tag {
            return if stood < node.most {
                Some(Found {
                    node,
                    left: Left::Rows {
                        at: i as u8,
                        count: stood + 1,
                    },
                    at: i as u8,
                })
            } else {
                None
            };
        }
        if stood < node.least {
            return None;
        }
        stood = 0;
    }
    None
}

// The row with this tag.
fn pick_row(nodes: &'static [Node], tag: &[u8]) -> Option<Found>
    requires few { length nodes.now < 256 }
    requires bounded { bounded_test (table_view nodes.now) ≡ true }
    ensures row { MatchOption result (pick (table_view nodes.now) 0 tag.now ≡ None)
        (λ f. pick (table_view nodes.now) 0 tag.now ≡ Some (found_of nodes.now f)) }
    ensures bounded { IfSome result (λ f. bounded_in (content_view f.node.now.shape) ≡ true) }
    ensures within { IfSome result (λ f. place_in f.left ≤ length nodes.now) }
    ensures tag { IfSome result (λ f. f.node.now.tag.now ≡ tag.now) }
{
    for i in 0..nodes.len() {
        let node = &nodes[i];
        if node.tag.as_bytes() == tag {
            return Some(Found {
                node,
                left: Left::Filled,
                at: i as u8,
            });
        }
    }
    None
}

/// The row with this tag that may stand next.
pub(crate) fn look(nodes: &'static [Node], left: Left, tag: &[u8]) -> Option<Found>
    requires few { length nodes.now < 256 }
    requires within { place_in left ≤ length nodes.now }
    requires bounded { bounded_test (table_view nodes.now) ≡ true }
    ensures row { MatchOption result (look (left_of nodes.now left) tag.now ≡ None)
        (λ f. look (left_of nodes.now left) tag.now ≡ Some (found_of nodes.now f)) }
    ensures bounded { IfSome result (λ f. bounded_in (content_view f.node.now.shape) ≡ true) }
    ensures within { IfSome result (λ f. place_in f.left ≤ length nodes.now) }
    ensures tag { IfSome result (λ f. f.node.now.tag.now ≡ tag.now) }
{
    match left {
        Left::Rows { at, count } => seek_row(nodes, at, count, tag),
        Left::Choice => pick_row(nodes, tag),
        Left::Filled => None,
    }
}

// Whether no row from a place on has to stand once more.
fn satisfied(nodes: &[Node], at: u8, count: u8) -> bool
    requires { at ≤ length nodes.now }
    ensures { result ≡ satisfied_by (table_view (drop at nodes.now)) count }
{
    let mut stood = count;
    for i in at as usize..nodes.len() {
        if stood < nodes[i].least {
            return false;
        }
        stood = 0;
    }
    true
}

/// Whether a structure may be closed.
pub(crate) fn ready(nodes: &[Node], left: Left) -> bool
    requires { place_in left ≤ length nodes.now }
    ensures { result ≡ ready_by (left_of nodes.now left) }
{
    match left {
        Left::Rows { at, count } => satisfied(nodes, at, count),
        Left::Choice => false,
        Left::Filled => true,
    }
}
