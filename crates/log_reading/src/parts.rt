// The parts of a text between the bytes that equal a separator.
ghost use Rattle.std.specs.Prelude.{◌≡◌, ◌≤◌, ◌+◌, ◌∷◌, length, take, drop, IfSome};
ghost use Rattle.log_lines.specs.Fields.{parts};
ghost use Rattle.log_reading.specs.Inner.{parts_after, parts_of};

/// The first part of a text, and the text after the separator that ends it, if there is one.
#[derive(Clone, Copy)]
pub struct Part<'a> {
    pub part: &'a [u8],
    pub rest: Option<&'a [u8]>,
}

// How many bytes come before the first separator.
fn len_before(bytes: &[u8], separator: u8) -> usize
    ensures within { result ≤ length bytes.now }
    ensures parts { parts separator bytes.now ≡ take result bytes.now ∷ parts_after separator (drop result bytes.now) }
{
    let mut end = 0;
    while end < bytes.len() && bytes[end] != separator {
        end += 1;
    }
    end
}

/// The first part of a text.
pub fn first_part(bytes: &[u8], separator: u8) -> Part<'_>
    ensures parts { parts separator bytes.now ≡ result.part.now ∷ parts_of separator result.rest }
    ensures rest { IfSome result.rest (λ rest. length result.part.now + 1 + length rest.now ≡ length bytes.now) }
{
    let end = len_before(bytes, separator);
    if end < bytes.len() {
        Part {
            part: &bytes[..end],
            rest: Some(&bytes[end + 1..]),
        }
    } else {
        Part {
            part: bytes,
            rest: None,
        }
    }
}
