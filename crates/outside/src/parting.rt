// Where the script ends that stands in front of a report.
ghost use Rattle.std.specs.Prelude.{◌≡◌, length, option_map};
ghost use Rattle.term_core.specs.Text.Cuts.{cut_at};
ghost use Rattle.outside.specs.Parting.{script_part};

/// The first line of these bytes without its line feed, and what stands behind it. None where no line ends.
fn cut_line(bytes: &[u8]) -> Option<(&[u8], &[u8])>
    ensures { option_map (λ p. (p.0.now, p.1.now)) result ≡ cut_at 10 bytes.now }
{
    for (place, byte) in bytes.iter().enumerate() {
        if *byte == b'\n' {
            return Some((&bytes[..place], &bytes[place + 1..]));
        }
    }
    None
}

/// How many bytes of an input are its script's part. It goes over the bytes once, and takes no memory.
pub fn script_length(bytes: &[u8]) -> usize
    ensures { result ≡ length (script_part bytes.now) }
{
    let mut rest = bytes;
    'lines: while let Some((line, behind)) = cut_line(rest) {
        if line == b"go".as_slice() {
            return bytes.len() - behind.len();
        }
        rest = behind;
    }
    bytes.len()
}
