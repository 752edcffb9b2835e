// Texts by number, in a table that holds them in a row.
ghost use Rattle.std.specs.Prelude.{◌≡◌, ◌<◌, not, SomeIff};
ghost use Rattle.texts.specs.Texts.{of_text, text_at, number_in};

// Whether a byte ends a text of a table.
fn ends_text(byte: &u8) -> bool
    ensures { result ≡ not (of_text byte.now) }
{
    *byte == b';'
}

// Text i of a table.
pub fn text_at(table: &[u8], i: usize) -> &[u8]
    ensures { result.now ≡ text_at table.now i }
{
    table.split(ends_text).nth(i).unwrap_or_default()
}

// The number of a text among the first `count` of a table, if it is one of them. (Where it is none, the definition gives `count`.)
pub fn number_in(table: &[u8], count: usize, text: &[u8]) -> Option<usize>
    ensures { SomeIff result (number_in count table.now text.now < count) (number_in count table.now text.now) }
{
    let mut texts = table.split(ends_text);
    for i in 0..count {
        if text == texts.next().unwrap_or_default() {
            return Some(i);
        }
    }
    None
}
