// In which line a block has no end or an end no block, and which row stands too deep.

use crate::read::{ALONE, FILE, Reader, check, file_of, lexed, told};
use crate::rows::read;
use crate::words_of;
use std::alloc::{AllocError, Global};
use std::process::Abort;
use std::test::Fail;
use vb_ends::{Mark, Role, Sort, first_broken, first_too_deep};
use vb_rows::{FileRows, read_rows};
use vb_text::NameTable;

// What opens a block of each sort, in a class, and what ends one.
const SORTS: [(&str, &str); 21] = [
    ("If a Then", "End If"),
    ("While a", "End While"),
    ("Do", "Loop"),
    ("For a = b To c", "Next"),
    ("Select a", "End Select"),
    ("Try", "End Try"),
    ("SyncLock a", "End SyncLock"),
    ("With a", "End With"),
    ("Using a", "End Using"),
    ("Sub a", "End Sub"),
    ("Function a() As b", "End Function"),
    ("Property a As b", "End Property"),
    ("Get", "End Get"),
    ("Set", "End Set"),
    ("Custom Event a As b", "End Event"),
    ("AddHandler(a As b)", "End AddHandler"),
    ("RemoveHandler(a As b)", "End RemoveHandler"),
    ("RaiseEvent()", "End RaiseEvent"),
    ("Module a", "End Module"),
    ("Class a", "End Class"),
    ("Interface a", "End Interface"),
];

// What is told of an opener and an ender. A property's header opens a block only before an accessor or the property's end.
fn told_of_pair(opened: &str, own: &str, ended: &str) -> &'static str {
    if own == ended {
        "fine"
    } else if opened.starts_with("Property") {
        "2"
    } else {
        "1"
    }
}

// An opener, and behind it the ender of each sort.
fn ends_by_its_own(
    rt: &impl Abort,
    alloc: Global,
    opened: &'static str,
    own: &'static str,
) -> Result<(), AllocError> {
    for (_, ended) in SORTS {
        let file = file_of(alloc, (opened, ended), "/")?;
        let seen = told(alloc, Reader::Ends, &file)?;
        let wanted = told_of_pair(opened, own, ended);
        assert_eq!(rt; seen.as_str(), wanted, "{file}");
    }
    Ok(())
}

#[test]
fn a_block_ends_by_its_sort(rt: HostRuntime) -> Result<(), Fail> {
    for (opened, own) in SORTS {
        ends_by_its_own(&rt, rt.alloc(), opened, own)?;
    }
    Ok(())
}

#[test]
fn an_ender_alone_has_no_block(rt: HostRuntime) -> Result<(), Fail> {
    let alloc = rt.alloc();
    for (_, ended) in SORTS {
        let file = file_of(alloc, ("Else / ", ""), ended)?;
        let seen = told(alloc, Reader::Ends, &file)?;
        assert_eq!(rt; seen.as_str(), "2", "{file}");
    }
    Ok(())
}

// Statements, procedures and `If`s on one line.
const BLOCKS: [(&str, &str); 14] = [
    ("", "fine"),
    (
        "Shared Sub New() / For Each a In b / Next / End Sub",
        "fine",
    ),
    ("Shared Sub New() / For Each a In b / Next", "1"),
    ("For Each a In b / Next / End Sub", "3"),
    (
        "Module a / Sub b / While c : End While / d / End Sub / End Module",
        "fine",
    ),
    ("Module a / Sub b / While c : End While / d", "1"),
    (
        "Sub b / While c : End While / d / End Sub / End Module",
        "5",
    ),
    // The ender of a statement passes no open block.
    (
        "Sub a / While b / For c = d To e / End While / Next / End While / End Sub",
        "4",
    ),
    // Another ender passes those inside its block, and none where no block of its sort is open.
    ("Sub a / While b / Get / End Sub / End While", "2"),
    ("Sub a / While b / End Function / End While / End Sub", "3"),
    // Rows of an `If` on one line neither open nor end.
    (
        "If a Then / If b Then Return : End If Else Try / End If",
        "fine",
    ),
    ("If b Then Return : End If Else Try / End If", "2"),
    // A row of no grammar does nothing, and what stands behind it is alone.
    ("Try / x = = 1 / End Try", "fine"),
    ("While a / x = 1", "1"),
];

// Members of classes and interfaces.
const MEMBERS: [(&str, &str); 21] = [
    ("Class a / MustOverride Sub b / End Class", "fine"),
    (
        "Class a / MustOverride Function b() As c / End Class",
        "fine",
    ),
    ("Class a / MustOverride Sub New() / End Class", "fine"),
    ("Class a / Overridable Sub b / End Class", "2"),
    ("Class a / Overridable Function b() As c / End Class", "2"),
    ("Class a / Overridable Sub New() / End Class", "2"),
    // Where a property must be overridden, an accessor behind it is in no property.
    (
        "Class a / MustOverride Property b As c / Get / End Get / End Property / End Class",
        "5",
    ),
    (
        "Interface a / Inherits b / Sub c / Function d() As e / Property f As g / Event h() / Sub c / End Interface / Class a / Sub c / End Sub / End Class",
        "fine",
    ),
    // Behind an interface, and where there is none, a header opens a block.
    (
        "Interface a / Inherits b / Sub c / Function d() As e / Property f As g / Event h() / Sub c / End Interface / Class a / Sub c",
        "9",
    ),
    (
        "Inherits b / Sub c / Function d() As e / Property f As g / Event h() / Sub c / End Interface",
        "2",
    ),
    // So do other headers in one.
    (
        "Interface a / Shared Sub b / End Sub / End Interface",
        "fine",
    ),
    (
        "Interface a / Sub b Implements c.d / End Sub / End Interface",
        "fine",
    ),
    (
        "Interface a / Iterator Function b() As c / End Function",
        "1",
    ),
    // A header stands directly in the innermost block, whatever else stands there.
    ("Interface a / Return / Sub b / End Interface", "fine"),
    (
        "Interface a / Imports b : Function c() As d / End Interface",
        "fine",
    ),
    (
        "Interface a / Class b / Function c() As d / End Class / End Interface",
        "3",
    ),
    // A property opens a block before an accessor.
    (
        "Property a As b / Property a As b / Get / End Get / End Property",
        "fine",
    ),
    (
        "Property a As b / Property a As b / Set / End Set / End Property",
        "fine",
    ),
    ("Property a As b", "fine"),
    ("Property a As b / Property a As b / Get / End Get", "2"),
    ("Property a As b / Property a As b / Set / End Set", "2"),
];

#[test]
fn blocks_have_ends(rt: HostRuntime) -> Result<(), Fail> {
    check(&rt, rt.alloc(), Reader::Ends, ALONE, &BLOCKS)?;
    check(&rt, rt.alloc(), Reader::Ends, ALONE, &MEMBERS)?;
    Ok(())
}

#[test]
fn marks_have_a_first_broken_line(rt: HostRuntime) -> Result<(), Fail> {
    let marks = [
        Mark {
            role: Role::Opens(Sort::While),
            line: 3,
        },
        Mark {
            role: Role::Stays,
            line: 4,
        },
        Mark {
            role: Role::Ends(Sort::While),
            line: 5,
        },
    ];
    assert_eq!(rt; first_broken(rt.alloc(), &marks)?, None);
    assert_eq!(rt; first_broken(rt.alloc(), &marks[..2])?, Some(3));
    assert_eq!(rt; first_broken(rt.alloc(), &marks[1..])?, Some(5));
    Ok(())
}

// The rows of a file.
fn rows_of(alloc: Global, file: &str) -> Result<FileRows, AllocError> {
    let mut names = NameTable::new(alloc)?;
    let words = words_of(&mut names)?;
    let Ok(lines) = lexed(alloc, file.as_bytes(), &mut names) else {
        return Err(AllocError);
    };
    read_rows(alloc, &words, FILE, lines.as_slice())
}

// The line of the first row that stands too deep, where the rows have these brackets.
fn too_deep(
    rt: &impl Abort,
    alloc: Global,
    found: &FileRows,
    brackets: &[usize],
) -> Result<Option<u32>, AllocError> {
    let rows = found.rows.as_slice();
    assert_eq!(rt; brackets.len(), rows.len());
    first_too_deep(alloc, rows, brackets)
}

// So many blocks, one inside the other, each opener on a line of its own from 1 on, and their enders from line 1000 on.
fn nested(alloc: Global, depth: usize) -> Result<String, AllocError> {
    let mut file = String::new(alloc);
    for _ in 0..depth {
        file.push_str("Try\n")?;
    }
    for _ in depth..999 {
        file.push_str("\n")?;
    }
    for _ in 0..depth {
        file.push_str("End Try\n")?;
    }
    Ok(file)
}

// So many blocks, and so many brackets in each of their rows.
const DEPTHS: [(usize, usize, Option<u32>); 11] = [
    (0, 0, None),
    (100, 0, None),
    // The innermost opener stands in 100 blocks; its ender is the first row inside it.
    (101, 0, Some(1000)),
    // The opener of the 102nd block stands in 101.
    (102, 0, Some(102)),
    (99, 1, None),
    (100, 1, Some(1000)),
    (101, 1, Some(101)),
    (1, 99, None),
    (1, 100, Some(1000)),
    (1, 101, Some(1)),
    (1, usize::MAX, Some(1)),
];

#[test]
fn a_row_stands_in_at_most_a_hundred_blocks_and_brackets(rt: HostRuntime) -> Result<(), Fail> {
    let alloc = rt.alloc();
    for (depth, count, line) in DEPTHS {
        let found = rows_of(alloc, &nested(alloc, depth)?)?;
        let brackets = vec![in alloc; count; depth.saturating_mul(2)]?;
        let seen = too_deep(&rt, alloc, &found, &brackets)?;
        assert_eq!(rt; seen, line, "{depth} and {count}");
    }
    Ok(())
}

const UNORDERED: [(u32, &str); 4] = [(7, "Try"), (8, "Return"), (9, "End Try"), (3, "Return")];

// The brackets of these rows. The least line is told, wherever its row stands.
const BRACKETS: [([usize; 4], Option<u32>); 4] = [
    ([100, 99, 99, 100], None),
    ([0, 100, 0, 0], Some(8)),
    ([101, 100, 100, 0], Some(7)),
    ([0, 0, 100, 101], Some(3)),
];

#[test]
fn brackets_count_at_their_row(rt: HostRuntime) -> Result<(), Fail> {
    let alloc = rt.alloc();
    let mut names = NameTable::new(alloc)?;
    let found = read(alloc, &mut names, &UNORDERED)?;
    for (brackets, line) in BRACKETS {
        let seen = too_deep(&rt, alloc, &found, &brackets)?;
        assert_eq!(rt; seen, line);
    }
    Ok(())
}
