// The guard of page zero.
ghost use Rattle.std.specs.Prelude.{◌≡◌, ◌+◌, ◌≤◌};
ghost use Rattle.line.specs.Definition.Guard.{guarded};

// A store of `count` bytes from offset `from` of this row on touches a guarded byte.
pub fn guards(row: usize, from: usize, count: usize) -> bool
    requires { from + count ≤ 16384 }
    ensures { result ≡ guarded row from count }
{
    let end = from + count;
    (row == 0) & (0 < count) & (((from < 61) & (48 < end)) | ((from < 92) & (63 < end)))
}
