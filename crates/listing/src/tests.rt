// Real listings, read and written.
use crate::fault::ListingFault;
use crate::item::{Item, Line};
use crate::pairs::read_pairs;
use crate::plan::list_plan;
use crate::plan_fault::PlanListingFault;
use crate::reader::Reader;
use crate::rewrite::{rewrite, rewritten_len};
use crate::writer::{Frame, write_frame};
use least::step::Step;
use memory::kind::Kind;
use std::test::Fail;

// Where a text fails, as line and column, if it does.
fn place(text: &[u8]) -> Option<(usize, usize)> {
    match rewritten_len(text) {
        Err(ListingFault::Malformed { line, column }) => Some((line, column)),
        _ => None,
    }
}

#[test]
fn lines_fail_where_they_cannot_go_on(rt: HostRuntime) {
    assert_eq!(rt; place(b"\n"), Some((1, 1)));
    assert_eq!(rt; place(b"0G\n"), Some((1, 1)));
    assert_eq!(rt; place(b"0"), Some((1, 1)));
    assert_eq!(rt; place(b"0a\n"), Some((1, 1)));
    assert_eq!(rt; place(b"06x\n"), Some((1, 3)));
    assert_eq!(rt; place(b"06"), Some((1, 3)));
    assert_eq!(rt; place(b"06 x\n"), Some((1, 4)));
    assert_eq!(rt; place(b"06 "), Some((1, 4)));
    assert_eq!(rt; place(b"06 >01\n"), Some((1, 5)));
    assert_eq!(rt; place(b"06 > 00\n"), Some((1, 6)));
    assert_eq!(rt; place(b"06 > 0"), Some((1, 6)));
    assert_eq!(rt; place(b"06 > 01 \n"), Some((1, 8)));
    assert_eq!(rt; place(b"06\n; no end"), Some((2, 9)));
    assert_eq!(rt; place(b"; note\n05 > 01\n02 00 00 3E 11 22 33 44\n"), None);
}

#[test]
fn a_line_gives_its_items(rt: HostRuntime) -> Result<(), Fail> {
    let mut reader = Reader::new(b"; status\n9F > 03\n");
    assert!(rt; reader.next_line()?.is_some());
    let Some(line) = reader.next_line()? else {
        return Err(Fail::new("no second line"));
    };
    let Line { first, count } = line;
    let mut bytes = [0; 2];
    assert_eq!(rt; read_pairs(first.item.text(), &mut bytes)?, 1);
    assert_eq!(rt; bytes, [0x9F, 0]);
    let Some(count) = count else {
        return Err(Fail::new("no count"));
    };
    assert_eq!(rt; (count.line, count.column), (2, 6));
    assert!(rt; matches!(count.item, Item::Count(_)));
    assert_eq!(rt; read_pairs(count.item.text(), &mut bytes)?, 1);
    assert_eq!(rt; bytes, [3, 0]);
    assert!(rt; reader.next_line()?.is_none());
    Ok(())
}

#[test]
fn frames_are_written(rt: HostRuntime) {
    let mut line = [0xFF; 16];
    assert_eq!(rt;
        write_frame(
            Frame {
                code: 0x0B,
                rest: &[0xA0],
                back: 0xFF,
            },
            &mut line,
        ),
        Ok(11)
    );
    assert_eq!(rt; line, *b"0B A0 > FF\n\xFF\xFF\xFF\xFF\xFF");
    let mut text = [0; 9];
    assert_eq!(rt;
        rewrite(b"; on\n06\n;\n05 > 01\n", &mut text),
        Err(ListingFault::TextShort { needed: 11 })
    );
    assert_eq!(rt; text, [0; 9]);
    assert_eq!(rt; rewrite(b"06\n;x\n04\n", &mut text), Ok(6));
    assert_eq!(rt; text, *b"06\n04\n\0\0\0");
}

// A program and a sector erase, with the data of the first.
fn two_steps() -> [Step; 2] {
    [
        Step {
            kind: Kind::Program,
            address: 0x3E,
            length: 4,
            place: 1,
        },
        Step {
            kind: Kind::SectorErase,
            address: 0x010100,
            length: 99,
            place: 99,
        },
    ]
}

#[test]
fn a_plan_is_listed(rt: HostRuntime) {
    let data = [0, 0x11, 0x22, 0x33, 0x44];
    let mut text = [0xFF; 44];
    assert_eq!(rt; list_plan(&two_steps(), &data, &mut text), Ok(42));
    assert_eq!(rt;
        text,
        *b"06\n02 00 00 3E 11 22 33 44\n06\nD8 01 01 00\n\xFF\xFF"
    );
    let mut short = [0; 41];
    assert_eq!(rt;
        list_plan(&two_steps(), &data, &mut short),
        Err(PlanListingFault::TextShort { needed: 42 })
    );
    assert_eq!(rt; short, [0; 41]);
}

#[test]
fn a_plan_is_refused(rt: HostRuntime) {
    let mut text = [0; 2];
    let [program, erase] = two_steps();
    assert_eq!(rt;
        list_plan(&[erase, program], &[0; 4], &mut text),
        Err(PlanListingFault::PageData { length: 4 })
    );
    let far = Step {
        address: 0x1000000,
        ..erase
    };
    assert_eq!(rt;
        list_plan(&[far, program], &[0; 4], &mut text),
        Err(PlanListingFault::Address { address: 0x1000000 })
    );
    let bulk = Step {
        kind: Kind::BulkErase,
        ..far
    };
    let mut all = [0; 6];
    assert_eq!(rt; list_plan(&[bulk], &[], &mut all), Ok(6));
    assert_eq!(rt; all, *b"06\nC7\n");
}
