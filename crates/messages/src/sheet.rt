// Columns of the coding sheet, and the picture of a line: the line under a ruler of the sheet, with marks under the columns that break a rule.
// Source: SPS manual, coding sheet; the picture is this project's own.
use crate::said::Said;
use crate::words::{Cells, width_of};
use std::fmt;

// Columns, counted from 1, both included.
#[derive(Clone, Copy)]
pub(crate) struct SheetColumns {
    pub(crate) first: usize,
    pub(crate) last: usize,
}

fn columns(first: usize, last: usize) -> SheetColumns {
    SheetColumns { first, last }
}

// The fields of the sheet.
pub(crate) const PAGE: SheetColumns = SheetColumns { first: 1, last: 5 };

pub(crate) const LABEL: SheetColumns = SheetColumns { first: 6, last: 11 };

pub(crate) const OPERATION: SheetColumns = SheetColumns {
    first: 12,
    last: 15,
};

pub(crate) const OPERANDS: SheetColumns = SheetColumns {
    first: 16,
    last: 75,
};

pub(crate) const IDENTIFICATION: SheetColumns = SheetColumns {
    first: 76,
    last: 80,
};

impl SheetColumns {
    // What a line has in these columns.
    pub(crate) fn of(self, line: &[u8]) -> &[u8] {
        let line = &line[..line.len().min(self.last)];
        &line[line.len().min(self.first.saturating_sub(1))..]
    }

    // How many characters these columns take when a line is shown; one for a column that the line does not have.
    fn width(self, line: &[u8]) -> usize {
        let cells = self.of(line);
        let mut width = self
            .last
            .saturating_sub(self.first.saturating_sub(1))
            .saturating_sub(cells.len());
        for cell in cells {
            width = width.saturating_add(width_of(*cell));
        }
        width
    }
}

// The most characters of a line that the picture shows.
const WIDEST: usize = 100;

// The least last column of the ruler, so that the word "operands" has room.
const LEAST_RULER: usize = 23;

// A character, and how often it is repeated.
#[derive(Clone, Copy)]
struct Repeated(char, usize);

impl fmt::Display for Repeated {
    fn fmt<W: fmt::Write>(&self, f: &mut fmt::Formatter<W>) -> fmt::Result {
        for _place in 0..self.1 {
            f.write_char(self.0)?;
        }
        Ok(())
    }
}

// Shows a line with these columns marked. Blanks at its end are left out, unless they are marked.
pub(crate) fn say_picture(said: &mut Said, line: &[u8], mark: Option<SheetColumns>) {
    let line = without_end_blanks(line, mark);
    let shown = beginning(line);
    let has_end = OPERANDS.last < shown.len();
    let page = PAGE.width(shown);
    let label = LABEL.width(shown);
    let operation = OPERATION.width(shown);
    let ruler = columns(
        OPERANDS.first,
        shown.len().max(LEAST_RULER).min(OPERANDS.last),
    );
    let operands = ruler.width(shown);
    // the names of the fields, each above its first column, and a ruler with the numbers of these columns
    let (a, b, c) = (
        Repeated(' ', page.saturating_sub(4)),
        Repeated(' ', label.saturating_sub(5)),
        Repeated(' ', operation.saturating_sub(2)),
    );
    let (d, e, g) = (
        Repeated('.', page.saturating_sub(1)),
        Repeated('.', label.saturating_sub(1)),
        Repeated('.', operation.saturating_sub(2)),
    );
    let dots = Repeated('.', operands.saturating_sub(2));
    if has_end {
        let blanks = Repeated(' ', OPERANDS.width(shown).saturating_sub(8));
        let end = Repeated('.', IDENTIFICATION.width(shown).saturating_sub(2));
        said.line(format_args!("page{a}label{b}op{c}operands{blanks}ident"));
        said.line(format_args!("1{d}6{e}12{g}16{dots}76{end}"));
    } else {
        said.line(format_args!("page{a}label{b}op{c}operands"));
        said.line(format_args!("1{d}6{e}12{g}16{dots}"));
    }
    let cells = Cells(shown);
    let more = if shown.len() < line.len() { "..." } else { "" };
    said.line(format_args!("{cells}{more}"));
    if let Some(mark) = mark {
        if mark.first <= shown.len() {
            let before = Repeated(' ', columns(1, mark.first.saturating_sub(1)).width(shown));
            let under = Repeated(
                '^',
                columns(mark.first, mark.last.min(shown.len())).width(shown),
            );
            said.line(format_args!("{before}{under}"));
        }
    }
}

// The line without the blanks at its end, except the marked blanks.
fn without_end_blanks(line: &[u8], mark: Option<SheetColumns>) -> &[u8] {
    let least = match mark {
        Some(mark) => mark.last,
        None => 0,
    };
    let blanks = line.iter().rev().take_while(|b| **b == b' ').count();
    let written = line.len().saturating_sub(blanks);
    &line[..written.max(least).min(line.len())]
}

// The beginning of a line, as far as the picture shows it.
fn beginning(line: &[u8]) -> &[u8] {
    let mut width = 0usize;
    for place in 0..line.len() {
        width = width.saturating_add(width_of(line[place]));
        if width > WIDEST {
            return &line[..place];
        }
    }
    line
}
