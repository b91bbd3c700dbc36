// Fields as bytes, at their place: numbers, rows, and runs of bytes.
ghost use Rattle.std.specs.Prelude.{◌≡◌, List, ℕ, ◌+◌, ◌*◌, ◌≤◌, length, drop};
ghost use Rattle.text.specs.Definition.Put.{Puts, Room};
ghost use Rattle.image.specs.Definition.Image.{u16_bytes, u32_bytes, u64_bytes, run_at, rows_bytes, rows_of};
ghost use Rattle.image.specs.Within.{Told};

use text::Cursor;

// What has as many bytes at each value.
pub trait Field: Copy {
    const SIZE: usize;

    ghost SIZE: { ℕ };

    ghost bytes: { Self → List ℕ };

    fn put(self, to: &mut Cursor)
        requires { Room to.old SIZE }
        ensures { Puts to.old to.new (bytes self) × (to.new.at ≡ to.old.at + SIZE) };
}

// What its bytes tell. `Full` says that a row's arrays have their types' lengths, which a law does not know.
pub trait Row: Field {
    ghost from: { List ℕ → Self };

    ghost Full: { Self → Type 0 } = { λ _. Unit {0} };

    fn read(image: &[u8], at: usize) -> Self
        requires { at + Self.SIZE ≤ length image.now }
        ensures { result ≡ from (drop at image.now) };

    ghost told: { Told Self.SIZE Self.bytes from Full };
}

// The three numbers have an impl each: `to_le_bytes` gives an array of another length at each.
impl Field for u16 {
    const SIZE: usize = 2;

    ghost SIZE = { 2 };

    ghost bytes = { u16_bytes };

    fn put(self, to: &mut Cursor) {
        to.put_run(&self.to_le_bytes());
    }
}

impl Field for u32 {
    const SIZE: usize = 4;

    ghost SIZE = { 4 };

    ghost bytes = { u32_bytes };

    fn put(self, to: &mut Cursor) {
        to.put_run(&self.to_le_bytes());
    }
}

impl Field for u64 {
    const SIZE: usize = 8;

    ghost SIZE = { 8 };

    ghost bytes = { u64_bytes };

    fn put(self, to: &mut Cursor) {
        to.put_run(&self.to_le_bytes());
    }
}

// Fields of one type, one after the other.
pub fn put_all<F: Field>(rows: &[F], to: &mut Cursor)
    requires { Room to.old (F.SIZE * length rows.now) }
    ensures { Puts to.old to.new (rows_bytes F.bytes rows.now) × (to.new.at ≡ to.old.at + F.SIZE * length rows.now) }
{
    for row in rows {
        row.put(to);
    }
}

// Rows from a place on, as many as there is room for.
pub fn read_all<R: Row>(image: &[u8], at: usize, rows: &mut [R])
    requires { at + R.SIZE * length rows.old ≤ length image.now }
    ensures { rows.new ≡ rows_of R.from R.SIZE (length rows.old) (drop at image.now) }
{
    for (i, row) in rows.iter_mut().enumerate() {
        *row = R::read(image, at + R::SIZE * i);
    }
}

// A run of bytes.
pub fn run_at<const N: usize>(image: &[u8], at: usize) -> [u8; N]
    requires { at + N ≤ length image.now }
    ensures { result ≡ run_at image.now at N }
{
    *image[at..].first_chunk().unwrap()
}
