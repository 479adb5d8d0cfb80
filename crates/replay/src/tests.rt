// Long and odd listings, and what is printed of them.
use crate::{BUSY, CAPACITY, replay};
use std::alloc::Global;
use std::process::Abort;
use std::test::Fail;
use trials::chip::blank_chip;
use trials::trial::OPEN;

// What is printed of a listing that is played on a new chip.
fn printed(heap: Global, text: &[u8]) -> Result<String, Fail> {
    let mut chip = blank_chip(heap, CAPACITY, OPEN, BUSY)?;
    let mut out = String::new(heap);
    replay(heap, text, &mut chip, &mut out)?;
    Ok(out)
}

fn prints(rt: &impl Abort, heap: Global, text: &[u8], wanted: &str) -> Result<(), Fail> {
    assert_eq!(rt; printed(heap, text)?.as_str(), wanted);
    Ok(())
}

#[test]
fn odd_listings(rt: HostRuntime) -> Result<(), Fail> {
    let heap = rt.alloc();
    prints(&rt, heap, b"", "")?;
    prints(&rt, heap, b"; nothing but a note\n", "")?;
    prints(&rt, heap, b"\n", "E12 1 1\n")?;
    prints(&rt, heap, b"06\n06 x\n", "-\nE12 2 4\n")?;
    // write enable sets bit 1 of the status byte; notes do nothing
    prints(
        &rt,
        heap,
        b"; first\n06\n;\n; 05 > 01\n05 > 01\n; last\n",
        "-\n82\n",
    )?;
    prints(
        &rt,
        heap,
        b"06\n9F > 03\n9f > 03\n06\n",
        "-\n20 DA 0B\nE12 3 1\n",
    )?;
    // four bytes wanted of the identification, an unknown code, and a cycle without the latch
    prints(
        &rt,
        heap,
        b"9F > 04\nAB > 01\n02 00 00 00 00\n03 00 00 00 > 01\n",
        "FF FF FF FF\nFF\n-\nFF\n",
    )?;
    // reading comes round at the end of the chip, and beyond the end there is nothing
    prints(
        &rt,
        heap,
        b"06\n02 00 00 00 5A\n05 > 03\n05 > 01\n05 > 01\n03 00 07 FF > 02\n03 00 08 00 > 01\n",
        "-\n-\n81 81 81\n81\n80\nFF 5A\nFF\n",
    )
}

// A page filled with 00h: its last byte, and the first of the next page.
#[test]
fn full_page(rt: HostRuntime) -> Result<(), Fail> {
    let heap = rt.alloc();
    let mut text = String::new(heap);
    write!(text, "06\n02 00 00 00")?;
    for _ in 0..64 {
        write!(text, " 00")?;
    }
    write!(text, "\n05 > 03\n05 > 01\n05 > 01\n03 00 00 3F > 02\n")?;
    prints(
        &rt,
        heap,
        text.as_bytes(),
        "-\n-\n81 81 81\n81\n80\n00 FF\n",
    )
}

// Writes a line of so many pairs, with `end` behind them.
fn put_pairs(text: &mut String, pairs: usize, end: &str) -> Result<(), Fail> {
    for _ in 1..pairs {
        write!(text, "06 ")?;
    }
    writeln!(text, "06{end}")?;
    Ok(())
}

// The chip carries 320 bytes in all, sent and back; one byte more is not carried. The chip hears none of these frames: 06 is
// a frame of one byte.
#[test]
fn long_frames(rt: HostRuntime) -> Result<(), Fail> {
    let heap = rt.alloc();
    let mut text = String::new(heap);
    put_pairs(&mut text, 65, " > FF")?;
    put_pairs(&mut text, 66, " > FF")?;
    let out = printed(heap, text.as_bytes())?;
    assert_eq!(&rt; out.lines().count(), 2);
    assert!(&rt; out.ends_with("\nE10\n"));
    let mut text = String::new(heap);
    put_pairs(&mut text, 320, "")?;
    put_pairs(&mut text, 321, "")?;
    writeln!(text, "05 > 01")?;
    prints(&rt, heap, text.as_bytes(), "-\nE10\n80\n")
}

// More lines than are read of the standard input.
#[test]
fn long_listings(rt: HostRuntime) -> Result<(), Fail> {
    let heap = rt.alloc();
    let mut text = String::new(heap);
    for _ in 0..20000 {
        writeln!(text, "05 > 01")?;
    }
    let out = printed(heap, text.as_bytes())?;
    assert!(&rt; out.lines().all(|line| line == "80"));
    assert_eq!(&rt; out.lines().count(), 20000);
    Ok(())
}
