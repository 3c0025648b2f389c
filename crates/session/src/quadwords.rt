// A quadword in a line: eight bytes, low end first.
ghost use Rattle.std.specs.Prelude.{◌≡◌, ◌+◌, ◌≤◌};
ghost use Rattle.session.specs.Quadwords.{with_quadword};

// Puts a quadword in at an offset.
pub(crate) fn put_quadword(line: &mut [u8; 32], offset: usize, value: u64)
    requires { offset + 8 ≤ 32 }
    ensures { line.new ≡ with_quadword offset value line.old }
{
    line[offset..offset + 8].copy_from_slice(&value.to_le_bytes());
}
