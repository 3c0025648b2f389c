// The quadwords of a line, low end first.
ghost use Rattle.std.specs.Prelude.{◌≡◌, ◌*◌, ◌/◌, ◌%◌};
ghost use Rattle.bridge.specs.Longwords.{quadword_at};

// A place for a line, before one is read into it.
pub(crate) const BLANK: [u8; 32] = [0; 32];

// The quadword of a line in which an address lies.
pub fn quadword(line: &[u8; 32], address: u64) -> u64
    ensures { result ≡ quadword_at line.now (address % 32 / 8 * 8) }
{
    let first = (address % 32 / 8 * 8) as usize;
    u64::from_le_bytes(line[first..first + 8].try_into().unwrap())
}
