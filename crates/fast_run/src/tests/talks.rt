//! Talks with GDB. What answers it is what gdb 13 read of an independent simulator.
use super::programs::moved;
use super::{SMALLEST_PASS, answer_to, image_of};
use fsim_ports::{MemoryFiles, MemorySink, MemorySource};
use std::test::Fail;

/// What GDB writes, and what answers it.
const TALKS: [(&str, &str); 5] = [
    ("", ""),
    ("$?#3f", "+$T05#b9"),
    ("$?#00", "-"),
    (
        "$QStartNoAckMode#b0$vCont;s#b8$p20#d2$bs#d5$bs#d5",
        "+$OK#9a$T05#b9$04000080#8c$T05#b9$T05replaylog:begin;#02",
    ),
    (
        "$QStartNoAckMode#b0$Z0,80000008,4#a6$vCont;c#a8$vCont;c#a8$bc#c5$bc#c5",
        "+$OK#9a$OK#9a$T05#b9$O666173743a20706173730a#20$T05replaylog:end;#34\
         $T05#b9$T05replaylog:begin;#02",
    ),
];

fn talks() -> &'static [(&'static str, &'static str)] {
    &TALKS
}

#[test]
fn talks_are_answered_whatever_the_pieces(rt: HostRuntime) -> Result<(), Fail> {
    let alloc = rt.alloc();
    let mut files = MemoryFiles::new(alloc);
    files.add("a", image_of(alloc, SMALLEST_PASS)?.as_slice())?;
    for &(heard, written) in talks() {
        for piece in [1, 7, 4096] {
            let mut source = MemorySource::new(alloc, heard.as_bytes(), piece)?;
            let mut sink = MemorySink::new(alloc, 4096)?;
            let status = answer_to(&rt, alloc, "gdb a", &mut files, &mut source, &mut sink)?;
            assert_eq!(rt;
                (status, sink.bytes()),
                (5, written.as_bytes()),
                "{heard} {piece}"
            );
        }
    }
    Ok(())
}

#[test]
fn a_talk_sees_ram_where_the_machine_file_places_it(rt: HostRuntime) -> Result<(), Fail> {
    let alloc = rt.alloc();
    let mut files = MemoryFiles::new(alloc);
    files.add("a", moved(alloc)?.as_slice())?;
    files.add("m", b"ram.base = 0x20000000")?;
    let heard = b"$QStartNoAckMode#b0$p20#d2$vCont;s#b8$p20#d2$m20000000,4#4f$m80000000,4#55";
    let written = b"+$OK#9a$00000020#82$T05#b9$04000020#86$b7021000#bc$E01#a6".as_slice();
    let mut source = MemorySource::new(alloc, heard, 4096)?;
    let mut sink = MemorySink::new(alloc, 4096)?;
    let status = answer_to(
        &rt,
        alloc,
        "gdb a --machine m",
        &mut files,
        &mut source,
        &mut sink,
    )?;
    assert_eq!(rt; (status, sink.bytes()), (5, written));
    Ok(())
}

#[test]
fn a_read_that_fails_cuts_a_talk_off(rt: HostRuntime) -> Result<(), Fail> {
    let alloc = rt.alloc();
    let mut files = MemoryFiles::new(alloc);
    files.add("a", image_of(alloc, SMALLEST_PASS)?.as_slice())?;
    let mut source = MemorySource::new(alloc, b"$?#3f$?#3f", 5)?;
    source.fail_at(2)?;
    let mut sink = MemorySink::new(alloc, 4096)?;
    let status = answer_to(&rt, alloc, "gdb a", &mut files, &mut source, &mut sink)?;
    let written = b"+$T05#b9fast: read fault: packets\n".as_slice();
    assert_eq!(rt; (status, sink.bytes()), (14, written));
    Ok(())
}

#[test]
fn a_put_that_fails_cuts_a_talk_off(rt: HostRuntime) -> Result<(), Fail> {
    let alloc = rt.alloc();
    let mut files = MemoryFiles::new(alloc);
    files.add("a", image_of(alloc, SMALLEST_PASS)?.as_slice())?;
    let mut source = MemorySource::new(alloc, b"$?#3f$?#3f", 4096)?;
    let mut sink = MemorySink::new(alloc, 10)?;
    let status = answer_to(&rt, alloc, "gdb a", &mut files, &mut source, &mut sink)?;
    assert_eq!(rt; (status, sink.bytes()), (15, b"+$T05#b9+".as_slice()));
    Ok(())
}
