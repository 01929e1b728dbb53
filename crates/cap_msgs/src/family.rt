/// Which crate has the body of a message.
#[derive(Clone, Copy, Debug, PartialEq, Eq)]
pub(crate) enum Family {
    Sale,
    Batch,
    Management,
}
