// Faulty scripts and their messages, and how a script is taken.
use crate::read::{MOST_TEXT, read_script};
use crate::script::Script;
use calls::call::Call;
use std::alloc::Global;
use std::process::Abort;
use std::test::Fail;

// The message of a faulty script.
fn message(heap: Global, text: &[u8]) -> Result<String, Fail> {
    match read_script(heap, text) {
        Ok(_) => Err(Fail::new("the script is not faulty")),
        Err(fault) => Ok(format!(in heap; "{fault}")?),
    }
}

// Whether each faulty script has its message.
fn are_told(rt: &impl Abort, heap: Global, faulty: &[(&[u8], &str)]) -> Result<(), Fail> {
    for (text, wanted) in faulty {
        assert_eq!(rt; message(heap, text)?.as_str(), *wanted);
    }
    Ok(())
}

// Commands that are out of their order, or none.
const ORDER: [(&[u8], &str); 7] = [
    (b"", "line 1: the first command has to be chip"),
    (b"# no chip\n\n", "line 2: the first command has to be chip"),
    (b"close 1\n", "line 1: the first command has to be chip"),
    (b"chip 0B 80 2\nerase 1\n", "line 2: unknown command"),
    (
        b"chip 0B 80 2\n\nchip 0B 80 2\n",
        "line 3: chip is given twice",
    ),
    (
        b"chip 0B 80 2\nclose 1\nimage 0 00\n",
        "line 3: image and room stand before the first call",
    ),
    (
        b"chip 0B 80 2\nclose 1\nroom 1 1\n",
        "line 3: image and room stand before the first call",
    ),
];

#[test]
fn commands_stand_in_their_order(rt: HostRuntime) -> Result<(), Fail> {
    are_told(&rt, rt.alloc(), &ORDER)
}

// Commands with too few words, or too many.
const WORDS: [(&[u8], &str); 13] = [
    (
        b"chip 0B 80\n",
        "line 1: write it as: chip CAPACITY STATUS BUSY",
    ),
    (
        b"chip 0B 80 2 3\n",
        "line 1: write it as: chip CAPACITY STATUS BUSY",
    ),
    (
        b"chip 0B 80 2\nimage\n",
        "line 2: write it as: image ADDRESS BYTES",
    ),
    (
        b"chip 0B 80 2\nroom 1\n",
        "line 2: write it as: room STEPS DATA",
    ),
    (
        b"chip 0B 80 2\nroom 1 1 1\n",
        "line 2: write it as: room STEPS DATA",
    ),
    (b"chip 0B 80 2\nlimit\n", "line 2: write it as: limit POLLS"),
    (
        b"chip 0B 80 2\nlimit 3 3\n",
        "line 2: write it as: limit POLLS",
    ),
    (
        b"chip 0B 80 2\nclose 1 2\n",
        "line 2: write it as: close SECTOR",
    ),
    (b"chip 0B 80 2\nopen\n", "line 2: write it as: open SECTOR"),
    (
        b"chip 0B 80 2\nopen 1 2\n",
        "line 2: write it as: open SECTOR",
    ),
    (
        b"chip 0B 80 2\n\nread 0 # no length\n",
        "line 3: write it as: read ADDRESS LENGTH",
    ),
    (
        b"chip 0B 80 2\nread 0 1 1\n",
        "line 2: write it as: read ADDRESS LENGTH",
    ),
    (
        b"chip 0B 80 2\nwrite\n",
        "line 2: write it as: write ADDRESS BYTES",
    ),
];

#[test]
fn commands_have_their_words(rt: HostRuntime) -> Result<(), Fail> {
    are_told(&rt, rt.alloc(), &WORDS)
}

// Words that are no number or no byte, and chips that cannot be made of them.
const VALUES: [(&[u8], &str); 6] = [
    (
        b"chip 0B 80 2\nread 0 +1\n",
        "line 2: a number is decimal digits",
    ),
    (
        b"chip 0B 80 2\nlimit 18446744073709551616\n",
        "line 2: the number is too large",
    ),
    (
        b"chip 0B 80 2\nwrite 0 1\n",
        "line 2: a byte is two hexadecimal digits",
    ),
    (b"chip 0C 80 2\n", "line 1: no chip has this capacity byte"),
    (
        b"chip 0B 7C 2\n",
        "line 1: a status byte has bit 7 set, and bits 1 and 0 clear",
    ),
    (
        b"chip 0B 80 4097\n",
        "line 1: a busy number is at most 4096",
    ),
];

#[test]
fn words_have_their_values(rt: HostRuntime) -> Result<(), Fail> {
    are_told(&rt, rt.alloc(), &VALUES)
}

// More than there may be, one more each time.
const BOUNDS: [(&[u8], &str); 5] = [
    (
        b"chip 0B 80 2\nimage 2047 00 00\n",
        "line 2: the bytes end past the end of the chip",
    ),
    (
        b"chip 0B 80 2\nread 0 16777217\n",
        "line 2: more than 16777216 bytes in one command",
    ),
    (
        b"chip 0B 80 2\nwrite 0 00 16777216*00\n",
        "line 2: more than 16777216 bytes in one command",
    ),
    (
        b"chip 0B 80 2\nroom 1048577 0\n",
        "line 2: room is for at most 1048576 steps and 16777216 data bytes",
    ),
    (
        b"chip 0B 80 2\nroom 0 16777217\n",
        "line 2: room is for at most 1048576 steps and 16777216 data bytes",
    ),
];

#[test]
fn commands_keep_their_bounds(rt: HostRuntime) -> Result<(), Fail> {
    are_told(&rt, rt.alloc(), &BOUNDS)
}

// As much as one command may ask for.
const MOST_ASKED: [&[u8]; 3] = [
    b"chip 0B 80 2\nroom 1048576 16777216\n",
    b"chip 0B 80 2\nwrite 0 16777216*00\n",
    b"chip 0B 80 2\nread 0 16777216\n",
];

#[test]
fn commands_may_reach_their_bounds(rt: HostRuntime) -> Result<(), Fail> {
    for text in MOST_ASKED {
        let _script = read_script(rt.alloc(), text)?;
    }
    Ok(())
}

// As many bytes as a script may have, and one more.
#[test]
fn a_script_keeps_its_bound(rt: HostRuntime) -> Result<(), Fail> {
    let heap = rt.alloc();
    let mut text = String::from_str(heap, "chip 0B 80 2\n")?;
    for _ in 0..16 {
        text.push_str("read 0 16777216\n")?;
    }
    assert_eq!(rt; read_script(heap, text.as_bytes())?.calls.len(), 16);
    text.push_str("read 0 1\n")?;
    let wanted = "line 18: more than 268435456 bytes in the script";
    assert_eq!(rt; message(heap, text.as_bytes())?.as_str(), wanted);
    Ok(())
}

// A text that is too long is faulty where it passes that, whatever stands before.
#[test]
fn a_script_is_a_text(rt: HostRuntime) -> Result<(), Fail> {
    let heap = rt.alloc();
    let long = vec![in heap; b'\n'; MOST_TEXT + 1]?;
    let wanted = "line 1048577: the script is longer than 1048576 bytes";
    assert_eq!(rt; message(heap, &long)?.as_str(), wanted);
    let wanted = "line 3: the script is not UTF-8 text";
    assert_eq!(rt; message(heap, b"erase\n\n# \xFF\n\xFF")?.as_str(), wanted);
    Ok(())
}

#[test]
fn a_limit_is_for_the_writes_that_follow(rt: HostRuntime) -> Result<(), Fail> {
    let script = read_script(
        rt.alloc(),
        b"chip 0b 80 2\nlimit 3\nwrite 60 3*0a Ff\nlimit 4\nopen 1\n",
    )?;
    assert_eq!(rt; script.calls.len(), 2);
    let Some(
        Call::Write {
            address,
            bytes,
            limit,
        },
    ) = script.calls.first()
    else {
        return Err(Fail::new("no write"));
    };
    assert_eq!(rt; (*address, *limit), (60, 3));
    assert_eq!(rt; bytes.as_slice(), [0x0A, 0x0A, 0x0A, 0xFF].as_slice());
    Ok(())
}

// The limits of the writes of a script.
fn limits(heap: Global, script: &Script) -> Result<Vec<usize>, Fail> {
    let mut limits = Vec::new(heap);
    for call in &script.calls {
        if let Call::Write {
            address: _,
            bytes: _,
            limit,
        } = call
        {
            limits.push(*limit)?;
        }
    }
    Ok(limits)
}

#[test]
fn any_limit_may_be_given(rt: HostRuntime) -> Result<(), Fail> {
    let heap = rt.alloc();
    let script = read_script(
        heap,
        b"chip 0B 80 2\nlimit 0\nwrite 0\nlimit 4097\nwrite 0\nlimit 5\nwrite 0\nwrite 0\n",
    )?;
    assert_eq!(rt;
        limits(heap, &script)?.as_slice(),
        [0, 4097, 5, 5].as_slice()
    );
    Ok(())
}

// The chip is what its line says, and room and limit are what they are where no line says it.
#[test]
fn a_script_has_a_chip_room_and_a_limit(rt: HostRuntime) -> Result<(), Fail> {
    let heap = rt.alloc();
    let script = read_script(heap, b"chip 16 84 9\nwrite 0\n")?;
    let chip = &script.chip;
    assert_eq!(rt; (chip.capacity, chip.status, chip.busy), (0x16, 0x84, 9));
    assert_eq!(rt; chip.image.len(), 4194304);
    assert_eq!(rt; (script.room.steps, script.room.bytes), (512, 65536));
    assert_eq!(rt; limits(heap, &script)?.as_slice(), [4096].as_slice());
    Ok(())
}

#[test]
fn room_is_what_a_script_says(rt: HostRuntime) -> Result<(), Fail> {
    let script = read_script(rt.alloc(), b"chip 0B 80 2\nroom 2 16\n")?;
    assert_eq!(rt; (script.room.steps, script.room.bytes), (2, 16));
    Ok(())
}

// Comments, tabs and the line ends of other systems part words and lines and say nothing.
#[test]
fn comments_and_line_ends_say_nothing(rt: HostRuntime) -> Result<(), Fail> {
    let script = read_script(rt.alloc(), b"chip\t0B 80\t2#x\r\nclose 1 # a # b\n")?;
    assert_eq!(rt; script.calls.len(), 1);
    assert_eq!(rt; script.calls.first(), Some(&Call::Close { sector: 1 }));
    let _script = read_script(rt.alloc(), b"chip\t0B 80\t2\r\n")?;
    Ok(())
}

#[test]
fn copies_are_counted(rt: HostRuntime) -> Result<(), Fail> {
    let script = read_script(rt.alloc(), b"chip 0B 80 2\nwrite 60 0*AA 2*0a\n")?;
    let Some(
        Call::Write {
            address: _,
            bytes,
            limit: _,
        },
    ) = script.calls.first()
    else {
        return Err(Fail::new("no write"));
    };
    assert_eq!(rt; bytes.as_slice(), [0x0A, 0x0A].as_slice());
    Ok(())
}
