// The form of a block: how many records it has and, where it is written, what stands between them and its number.
ghost use Rattle.std.specs.Prelude.{◌≡◌, ◌+◌, ◌*◌, ◌≤◌, [], length};

// How many records a block has: no more than have room before its number.
#[derive(Clone, Copy)]
pub struct Per {
    pub records: usize,
    pub ghost few: { records ≤ 15 },
}

impl Per {
    // Blocks without a stamp.
    pub const PLAIN: Per = Per { records: 15 };
    // Blocks with a stamp of 32 bytes.
    pub const STAMPED: Per = Per { records: 14 };
}

// A form to write: the records and the stamp take all the room before the number.
#[derive(Clone, Copy)]
pub struct Form<'a> {
    pub per: usize,
    pub stamp: &'a [u8],
    pub ghost some: { 1 ≤ per },
    pub ghost fits: { 32 * per + length stamp.now ≡ 480 },
}

impl<'a> Form<'a> {
    // The form of blocks without a stamp.
    pub fn plain() -> Form<'a>
        ensures { (result.per ≡ 15) × (result.stamp.now ≡ []) }
    {
        Form {
            per: 15,
            stamp: &[],
        }
    }

    // The form of blocks with a stamp.
    pub fn stamped(stamp: &'a [u8]) -> Form<'a>
        requires { length stamp.now ≡ 32 }
        ensures { (result.per ≡ 14) × (result.stamp.now ≡ stamp.now) }
    {
        Form { per: 14, stamp }
    }
}
