ghost use Rattle.std.specs.Prelude.{◌≡◌, ◌+◌, ◌≤◌, ◌<◌, length, codes, ◌++◌};
ghost use Rattle.mono_model.specs.Report.{line, count_line, misses_line, status_text};
ghost use Rattle.mono_model.specs.Report.{register_text, register_line};
ghost use Rattle.machine_csr.specs.Csr.{mstatus_of, mie_of};
ghost use Rattle.report_text.specs.Lines.{output_line, pc_line, interrupt_csrs_line};
ghost use Rattle.report_text.specs.Lines.{trap_csrs_line};

use crate::line::Line;
use machine_csr::Csrs;
use machine_csr::flags::{MIE_BIT, MPIE_BIT, MPP, TIMER_BIT};
use mono_model::{End, Final};

/// Appends how a run ended.
pub fn end_words(line: &mut Line, end: End)
    requires room { length line.old ≤ 120 }
    ensures text { line.new ≡ line.old ++ status_text end }
    ensures len { length line.new ≤ length line.old + 25 }
{
    match end {
        End::Pass => line.bytes(b"pass"),
        End::Fail(code) => {
            line.bytes(b"fail ");
            line.number(u64::from(code));
        }
        End::Limit => line.bytes(b"limit"),
        End::OutputFull => line.bytes(b"output full"),
        End::Running => line.bytes(b"running"),
    }
}

/// `status: pass`, and so on.
pub fn status_line(end: End) -> Line
    ensures text { result ≡ line (codes "status: ") (status_text end) }
{
    let mut line = Line::new();
    line.bytes(b"status: ");
    end_words(&mut line, end);
    line.byte(b'\n');
    line
}

/// A name and a number.
pub fn count_line(name: &[u8], number: u64) -> Line
    requires name { length name.now ≤ 40 }
    ensures text { result ≡ count_line name.now number }
{
    let mut line = Line::new();
    line.bytes(name);
    line.number(number);
    line.byte(b'\n');
    line
}

/// A name, and how many accesses there were and how many of them missed.
pub fn misses_line(name: &[u8], accesses: u64, misses: u64) -> Line
    requires name { length name.now ≤ 40 }
    ensures text { result ≡ misses_line name.now accesses misses }
{
    let mut line = Line::new();
    line.bytes(name);
    line.number(accesses);
    line.bytes(b" accesses, ");
    line.number(misses);
    line.bytes(b" misses\n");
    line
}

/// How many bytes of output there are.
pub fn output_line(bytes: u64) -> Line
    ensures text { result ≡ output_line bytes }
{
    let mut line = Line::new();
    line.bytes(b"output: ");
    line.number(bytes);
    line.bytes(b" bytes\n");
    line
}

/// The address of the next instruction to commit.
pub fn pc_line(pc: u32) -> Line
    ensures text { result ≡ pc_line pc }
{
    let mut line = Line::new();
    line.bytes(b"pc: ");
    line.hex(8, u64::from(pc));
    line.byte(b'\n');
    line
}

/// Appends a register's number and value.
fn register(line: &mut Line, regs: &[u32; 32], number: usize)
    requires register { number < 32 }
    requires room { length line.old + 30 ≤ 160 }
    ensures text { line.new ≡ line.old ++ register_text regs.now number }
    ensures len { length line.new ≤ length line.old + 30 }
{
    line.byte(b'x');
    line.number(number as u64);
    line.byte(b'=');
    line.hex(8, u64::from(regs[number]));
}

/// Four registers, from this one on.
pub fn register_line(regs: &[u32; 32], first: usize) -> Line
    requires registers { first + 3 < 32 }
    ensures text { result ≡ register_line regs.now first }
{
    let mut line = Line::new();
    register(&mut line, regs, first);
    line.byte(b' ');
    register(&mut line, regs, first + 1);
    line.byte(b' ');
    register(&mut line, regs, first + 2);
    line.byte(b' ');
    register(&mut line, regs, first + 3);
    line.byte(b'\n');
    line
}

/// The CSRs that say whether and where interrupts go, as CSRRS would read them.
pub fn interrupt_csrs_line(csrs: &Csrs) -> Line
    ensures text { result ≡ interrupt_csrs_line csrs.now }
{
    let mut line = Line::new();
    line.bytes(b"mstatus=");
    line.hex(8, mstatus(csrs));
    line.bytes(b" mie=");
    line.hex(8, mie(csrs));
    line.bytes(b" mtvec=");
    line.hex(8, u64::from(csrs.mtvec));
    line.bytes(b" mscratch=");
    line.hex(8, u64::from(csrs.mscratch));
    line.byte(b'\n');
    line
}

/// The CSRs of the last trap, and mtimecmp.
pub fn trap_csrs_line(csrs: &Csrs, cmp: u64) -> Line
    ensures text { result ≡ trap_csrs_line csrs.now cmp }
{
    let mut line = Line::new();
    line.bytes(b"mepc=");
    line.hex(8, u64::from(csrs.mepc));
    line.bytes(b" mcause=");
    line.hex(8, u64::from(csrs.mcause));
    line.bytes(b" mtval=");
    line.hex(8, u64::from(csrs.mtval));
    line.bytes(b" mtimecmp=");
    line.hex(16, cmp);
    line.byte(b'\n');
    line
}

/// mstatus: MPP is always machine mode.
fn mstatus(csrs: &Csrs) -> u64
    ensures value { result ≡ mstatus_of csrs.now }
{
    let enabled_before = u64::from(csrs.mpie) << MPIE_BIT;
    let enabled = u64::from(csrs.mie) << MIE_BIT;
    u64::from(MPP) + enabled_before + enabled
}

/// The register mie: the timer interrupt's bit alone.
fn mie(csrs: &Csrs) -> u64
    ensures value { result ≡ mie_of csrs.now }
{
    u64::from(csrs.mtie) << TIMER_BIT
}
