//! A record as it counts.
ghost use Rattle.std.specs.Prelude.{◌≡◌, true};
ghost use Rattle.family.specs.Rules.{fits, idle, kind_in, counted, fed_of};

use crate::kinds::BlockKind;
use crate::values::Params;

/// A record that a block of its kind can have.
#[derive(Drop)]
pub struct Counted<K: BlockKind> {
    pub kind: K,
    pub block: K::Record,
    pub ghost fitting: { fits K.rules kind block ≡ true },
}

impl<K: BlockKind> Counted<K> {
    /// What a record counts as: itself, or an idle block.
    pub fn read(block: K::Record) -> Counted<K>
        ensures kind { result.kind ≡ kind_in K.rules block }
        ensures block { result.block ≡ counted K.rules block }
    {
        let Some(kind) = K::of_code(K::code_in(block)) else {
            return Counted::idle();
        };
        if has_place(kind, block) {
            Counted { kind, block }
        } else {
            Counted::idle()
        }
    }

    // What a record counts as that no block can have.
    fn idle() -> Counted<K>
        ensures kind { result.kind ≡ K.rules.plain }
        ensures block { result.block ≡ idle K.rules }
    {
        let none = Params { p: 0, q: 0, r: 0 };
        Counted {
            kind: K::plain(),
            block: K::made(K::plain().code(), none, 0),
        }
    }

    /// The record after a feed.
    pub fn fed(self, n: i32) -> K::Record
        ensures { result ≡ fed_of K.rules self.kind self.block n }
    {
        if self.kind.takes() {
            K::with_u(self.block, K::told(n))
        } else {
            self.block
        }
    }

    /// The record with other parameters.
    pub fn tuned(self, params: Params) -> K::Record
        ensures { result ≡ K.rules.retuned self.block params }
    {
        K::retuned(self.block, params)
    }
}

// Whether a block of the kind can have the record.
fn has_place<K: BlockKind>(kind: K, block: K::Record) -> bool
    ensures { result ≡ fits K.rules kind block }
{
    kind.bad(K::params_in(block)).is_none() & kind.holds(block)
}
