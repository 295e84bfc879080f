// Tables of names and their values.
ghost use Rattle.std.specs.Prelude.{◌≡◌, map};
ghost use Rattle.line_words.specs.Rows.{row_from_table, value_by_name};

/// The value of the first row with this name, in a table of names and their values; `None` if no row has the name.
///
/// Source: this project's own.
#[tactic(auto, unfolding(crate::specs::Rows::value_by_name))]
pub fn find<T: Copy>(rows: &[(&str, T)], name: &[u8]) -> Option<T>
    ensures { result ≡ value_by_name (map row_from_table rows.now) name.now }
{
    for (text, value) in rows {
        if name == text.as_bytes() {
            return Some(*value);
        }
    }
    None
}
