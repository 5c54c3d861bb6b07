//! What the tests of both families share.
use family::{Family, Params};
use std::process::Abort;

// The first bad parameter of each row's p, q and r, for the kind of its code, or none.
pub(crate) fn judges<F: Family>(rt: &impl Abort, table: &[(u8, i32, i32, i32, Option<u8>)]) {
    for (code, p, q, r, bad) in table {
        let params = Params {
            p: *p,
            q: *q,
            r: *r,
        };
        assert_eq!(rt; F::bad(*code, params), *bad);
    }
}
