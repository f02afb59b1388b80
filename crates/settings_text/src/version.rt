// A form of the text: its first line is `set` and the form's number.
ghost use Rattle.std.specs.Prelude.{◌≡◌};
ghost use Rattle.settings_text.specs.Lines.{version_number};

#[derive(Clone, Copy, Debug, PartialEq, Eq)]
pub enum Version {
    One,
    Two,
}

impl From<Version> for u32 {
    ghost from_gives = { λ version number. number ≡ version_number version };

    fn from(version: Version) -> u32 {
        match version {
            Version::One => 1,
            Version::Two => 2,
        }
    }
}
