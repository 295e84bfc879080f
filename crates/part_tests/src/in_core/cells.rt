//! Searches and copies of cells, each compared with a search or copy cell by cell, at each place of a word; a law of the tables.

ghost use Rattle.std.specs.Prelude.{◌+◌, ◌<◌, ◌≤◌};
ghost use Rattle.digit_core.specs.Size.{IsSize};

use core_texts::write;
use digit_core::{Core, Digit, standard_digit, standard_tables_law};
use std::alloc::Global;

// The number of a cell; 0 past the end of core.
fn cell<const M: u32>(core: &Core<M>, at: u32) -> u8 {
    let size = core.size();
    if at < size { core.raw(at) } else { 0 }
}

// Whether a cell has a flag (0), is a record mark (1) or is bad (2).
fn passes(kind: u8, c: u8) -> bool {
    let value = c % 16;
    match kind {
        0 => c / 16 % 2 == 1,
        1 => value == 10,
        _ => c.count_ones() % 2 == 0 || value == 11 || value == 13 || value == 14,
    }
}

// The first of `n` cells from `a` upwards that passes, cell by cell.
fn first_up<const M: u32>(core: &Core<M>, kind: u8, a: u32, n: u32) -> Option<u32>
    requires { a + n ≤ 100000 }
{
    for k in 0..n {
        if passes(kind, cell(core, a + k)) {
            return Some(a + k);
        }
    }
    None
}

// The first of `n` cells below `a`, downwards.
fn first_down<const M: u32>(core: &Core<M>, kind: u8, a: u32, n: u32) -> Option<u32>
    requires { n ≤ a }
{
    for k in 0..n {
        let at = a - 1 - k;
        if passes(kind, cell(core, at)) {
            return Some(at);
        }
    }
    None
}

// Puts a flag, a record mark and a bad cell near the end of core, four times, `gap` cells apart.
fn spread<const M: u32>(core: &mut Core<M>, gap: u32) -> bool
    requires { gap ≤ 50 }
{
    let size = core.size();
    let mut done = true;
    for k in 0..4 {
        let at = size - 230 + gap * k;
        let flag = write(core, at, b"N").is_ok();
        let mark = write(core, at + 3, b"|").is_ok();
        core.flip(at + 6, 0);
        done = done && flag && mark;
    }
    done
}

// Whether the searches agree with searches cell by cell, at each place of a word and each length to 40.
fn each_agrees<const M: u32>(core: &Core<M>) -> bool {
    let size = core.size();
    let mut same = true;
    for o in 0..10 {
        for n in 0..40 {
            let a = size - 200 + o;
            let b = a + n;
            let up = core.first_bad(a, b) == first_up(core, 2, a, n + 1);
            let down = core.first_bad(b, a) == first_down(core, 2, b + 1, n + 1);
            let flag = core.flag_below(b) == first_down(core, 0, b, b);
            let mark = core.mark_above(a) == first_up(core, 1, a, size - a);
            same = same && up && down && flag && mark;
        }
    }
    same
}

// Whether the searches agree in a new core, with flags, marks and bad cells `gap` cells apart near its end.
fn searches_agree<const M: u32>(alloc: Global, gap: u32) -> bool
    requires size { IsSize M }
    requires gap { gap ≤ 50 }
{
    let Ok(mut core) = Core::<M>::new(alloc) else {
        return false;
    };
    spread(&mut core, gap) && each_agrees(&core)
}

#[test]
fn searches_at_each_place_of_a_word(rt: HostRuntime) {
    assert!(rt; searches_agree::<1>(rt.alloc(), 11));
    assert!(rt; searches_agree::<2>(rt.alloc(), 23));
    assert!(rt; searches_agree::<3>(rt.alloc(), 37));
}

// The cell at `at`, of 200 cells before a copy.
fn stood(cells: &[u8; 200], at: u32) -> u8 {
    if at < 200 { cells[at as usize] } else { 0 }
}

// Whether `n` cells copied from `from` to `to`, both below 160, are as they were at `from`, and all other cells stay.
fn copies_as_it_stood<const M: u32>(core: &mut Core<M>, to: u32, from: u32, n: u32) -> bool
    requires to { to < 160 }
    requires from { from < 160 }
    requires some { 1 ≤ n }
    requires few { n ≤ 40 }
{
    core.size_law();
    let mut cells = [0; 200];
    for k in 0..200 {
        core.put(
            k,
            Digit {
                flag: k % 3 == 0,
                value: (k % 7) as u8,
            },
        );
        cells[k as usize] = core.raw(k);
    }
    core.copy_cells(to + n - 1, from + n - 1, n);
    let mut same = true;
    for at in 0..200 {
        let inside = to <= at && at < to + n;
        let want = if inside {
            stood(&cells, (from + at).wrapping_sub(to))
        } else {
            stood(&cells, at)
        };
        same = same && cell(core, at) == want;
    }
    same
}

// Whether 1 to 25 cells are copied as they were, to a place above and to a place below, `o` cells into a word.
fn copies_of_each_length(alloc: Global, o: u32) -> bool
    requires { o < 10 }
{
    let Ok(mut core) = Core::<1>::new(alloc) else {
        return false;
    };
    let mut same = true;
    for n in 1..=25 {
        same = same
            && copies_as_it_stood(&mut core, 100 + o, 97, n)
            && copies_as_it_stood(&mut core, 60 + o, 70, n);
    }
    same
}

#[test]
fn copies_at_each_place_of_a_word(rt: HostRuntime) {
    for o in 0..10 {
        assert!(rt; copies_of_each_length(rt.alloc(), o));
    }
}

#[test]
fn the_standard_tables_have_a_law(rt: HostRuntime) {
    standard_tables_law();
    // 9 + 1, with a carry
    let ten = Digit {
        flag: true,
        value: 0,
    };
    assert!(rt; standard_digit(391) == ten);
}
