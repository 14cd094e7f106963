ghost use Rattle.std.specs.Prelude.{◌≡◌, ◌<◌, length};

use cell_marks::Marks;
use expect::equal;
use std::test::Fail;

/// Sets a mark of the second row.
fn set(marks: &mut Marks, c: u32)
    requires { c < marks.old.width }
    ensures width { marks.new.width ≡ marks.old.width }
    ensures rows { length marks.new.rows ≡ length marks.old.rows }
{
    if marks.len() == 2 {
        marks.set(1, c);
    }
}

// Rows of 70 components, so that a row has two words: the marks at 3, 63, 64 and 69 of one row are
// found in turn, and counted.
#[test]
fn marks_of_two_words(rt: HostRuntime) -> Result<(), Fail> {
    let mut marks = Marks::new(rt.alloc(), 70);
    marks.grow(rt.alloc(), 2, false)?;
    set(&mut marks, 63);
    set(&mut marks, 3);
    set(&mut marks, 69);
    set(&mut marks, 64);
    set(&mut marks, 3);
    let mut from = 0;
    for want in [Some(3), Some(63), Some(64), Some(69), None] {
        let first = marks.first_from(1, from);
        assert!(rt; equal(&rt, first, want));
        from = first.unwrap_or(0).wrapping_add(1);
    }
    marks.grow(rt.alloc(), 1, true)?;
    if marks.len() == 3 {
        marks.clear(1, 63);
    }
    assert!(rt;
        equal(
            &rt,
            (
                marks.has(1, 63),
                marks.has(1, 64),
                marks.has(2, 69),
                marks.has(2, 70),
            ),
            (false, true, true, false)
        )
    );
    assert!(rt; equal(&rt, (marks.row_count(1), marks.total()), (3, 73)));
    assert!(rt;
        equal(
            &rt,
            (marks.count_to(0), marks.count_to(1), marks.count_to(9)),
            (0, 3, 73)
        )
    );
    marks.truncate(2);
    assert!(rt; equal(&rt, (marks.len(), marks.total()), (2, 3)));
    Ok(())
}
