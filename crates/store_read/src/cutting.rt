// Texts cut at a separator: lines at newlines, fields at tabs.
ghost use Rattle.std.specs.Prelude.{◌≡◌, ◌∷◌};
ghost use Rattle.std.specs.Option.{option_copied};
ghost use Rattle.text.specs.Parts.{parted};
ghost use Rattle.store_read.specs.Reading.{parts_left};

use text::parts::part_end;

// A text's first part, and what stands behind the separator that ends it.
pub(crate) fn cut(text: &[u8], sep: u8) -> (&[u8], Option<&[u8]>)
    ensures { parted sep text.now ≡ result.0.now ∷ parts_left sep (option_copied result.1) }
{
    let end = part_end(text, 0, sep);
    if text.len() <= end {
        return (text, None);
    }
    (&text[..end], Some(&text[end + 1..]))
}
