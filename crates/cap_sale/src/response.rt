use cap_base::{Code6, Response};

/// The host's decision on sale n.
#[derive(Clone, Copy, Debug, PartialEq, Eq)]
pub struct AuthResponse {
    pub n: u64,
    pub response: Response,
    pub code: Code6,
}
