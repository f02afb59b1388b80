// Names: 1 to 16 lower-case letters.
ghost use Rattle.std.specs.Prelude.{◌≡◌};
ghost use Rattle.settings_text.specs.Fields.{is_letter, is_name};

fn is_letter(b: u8) -> bool
    ensures { result ≡ is_letter b }
{
    b'a' <= b && b <= b'z'
}

// Whether bytes are a name.
pub fn is_name(s: &[u8]) -> bool
    ensures { result ≡ is_name s.now }
{
    if s.is_empty() {
        return false;
    }
    if 16 < s.len() {
        return false;
    }
    for &b in s {
        if !is_letter(b) {
            return false;
        }
    }
    true
}
