use crate::{CsrWrite, Csrs, reads_time};
use rv_decode::Insn;

const TIME: u64 = 0x0000_0002_0000_0009;

const CMP: u64 = 0x0000_0002_0000_0009;

const CSRRW: u8 = 1;

const CSRRS: u8 = 2;

const CSRRC: u8 = 3;

const CSRRWI: u8 = 5;

const CSRRSI: u8 = 6;

const CSRRCI: u8 = 7;

const MSCRATCH: u16 = 0x340;

fn busy() -> Csrs {
    Csrs {
        mie: true,
        mpie: false,
        mtie: true,
        mtvec: 0x8000_0101,
        mscratch: 0x1234_5678,
        mepc: 0x8000_0abc,
        mcause: 0x8000_0007,
        mtval: 0xdead_beef,
        retired: 0x0000_0003_0000_0005,
    }
}

/// Address, value read, and what is read after CSRRW of ffffffff, CSRRS of 8b and CSRRC of 8b.
static WRITABLE: [(u16, u32, [u32; 3]); 17] = [
    (0x300, 0x0000_1808, [0x0000_1888, 0x0000_1888, 0x0000_1800]),
    (0x301, 0, [0, 0, 0]),
    (0x304, 0x0000_0080, [0x0000_0080, 0x0000_0080, 0]),
    (0x305, 0x8000_0101, [0xffff_fffd, 0x8000_0189, 0x8000_0100]),
    (0x310, 0, [0, 0, 0]),
    (0x320, 0, [0, 0, 0]),
    (0x340, 0x1234_5678, [0xffff_ffff, 0x1234_56fb, 0x1234_5670]),
    (0x341, 0x8000_0abc, [0xffff_fffc, 0x8000_0abc, 0x8000_0a34]),
    (0x342, 0x8000_0007, [0xffff_ffff, 0x8000_008f, 0x8000_0004]),
    (0x343, 0xdead_beef, [0xffff_ffff, 0xdead_beef, 0xdead_be64]),
    (0x344, 0x0000_0080, [0x0000_0080, 0x0000_0080, 0x0000_0080]),
    (0x3a0, 0, [0, 0, 0]),
    (0x3b0, 0, [0, 0, 0]),
    (0xb00, 9, [9, 9, 9]),
    (0xb02, 5, [5, 5, 5]),
    (0xb80, 2, [2, 2, 2]),
    (0xb82, 3, [3, 3, 3]),
];

/// Address and value read.
static READ_ONLY: [(u16, u32); 11] = [
    (0xc00, 9),
    (0xc01, 9),
    (0xc02, 5),
    (0xc80, 2),
    (0xc81, 2),
    (0xc82, 3),
    (0xf11, 0),
    (0xf12, 0),
    (0xf13, 0),
    (0xf14, 0),
    (0xf15, 0),
];

/// The addresses beside those of the table, and the ends of the hardware performance counters and
/// their selectors.
static ABSENT: [u16; 36] = [
    0x000, 0x2ff, 0x302, 0x303, 0x306, 0x30f, 0x311, 0x31f, 0x321, 0x323, 0x33f, 0x345, 0x39f,
    0x3a1, 0x3af, 0x3b1, 0xaff, 0xb01, 0xb03, 0xb1f, 0xb7f, 0xb81, 0xb83, 0xb9f, 0xbff, 0xc03,
    0xc1f, 0xc7f, 0xc83, 0xc9f, 0xcff, 0xd00, 0xf10, 0xf16, 0xfff, 0x1300,
];

fn csr_insn(kind: u8, rd: u8, rs1: u8, csr: u16) -> Insn {
    Insn::Csr { kind, rd, rs1, csr }
}

/// What CSRRS with x0 reads; the value of rs1 doesn't count then.
fn read(csrs: &Csrs, csr: u16) -> Option<u32> {
    match csrs.access(csr_insn(CSRRS, 5, 0, csr), 0xffff_ffff, TIME, CMP) {
        Some((value, CsrWrite::Nothing)) => Some(value),
        _ => None,
    }
}

/// What is read after one instruction.
fn read_after(kind: u8, rs1: u8, csr: u16, a: u32) -> Option<u32> {
    let mut csrs = busy();
    let (_, write) = csrs.access(csr_insn(kind, 5, rs1, csr), a, TIME, CMP)?;
    csrs.apply(write);
    read(&csrs, csr)
}

fn writable() -> &'static [(u16, u32, [u32; 3])] {
    &WRITABLE
}

fn read_only() -> &'static [(u16, u32)] {
    &READ_ONLY
}

fn absent() -> &'static [u16] {
    &ABSENT
}

#[test]
fn registers_show_and_keep_what_their_table_says(rt: HostRuntime) {
    for &(csr, value, after) in writable() {
        assert_eq!(rt; read(&busy(), csr), Some(value), "read {csr:x}");
        assert_eq!(rt;
            read_after(CSRRW, 6, csr, 0xffff_ffff),
            Some(after[0]),
            "write {csr:x}"
        );
        assert_eq!(rt;
            read_after(CSRRS, 6, csr, 0x0000_008b),
            Some(after[1]),
            "set {csr:x}"
        );
        assert_eq!(rt;
            read_after(CSRRC, 6, csr, 0x0000_008b),
            Some(after[2]),
            "clear {csr:x}"
        );
    }
}

#[test]
fn registers_that_are_read_only_refuse_a_write(rt: HostRuntime) {
    for &(csr, value) in read_only() {
        assert_eq!(rt; read(&busy(), csr), Some(value), "read {csr:x}");
        assert_eq!(rt; read_after(CSRRW, 6, csr, value), None, "write {csr:x}");
        assert_eq!(rt; read_after(CSRRS, 6, csr, value), None, "set {csr:x}");
        assert_eq!(rt; read_after(CSRRC, 6, csr, 0), None, "clear {csr:x}");
    }
}

#[test]
fn addresses_without_a_register_refuse_all(rt: HostRuntime) {
    for &csr in absent() {
        assert_eq!(rt; read(&busy(), csr), None, "read {csr:x}");
        assert_eq!(rt; read_after(CSRRW, 6, csr, 0), None, "write {csr:x}");
        let mut csrs = busy();
        csrs.apply(CsrWrite::Put {
            csr,
            value: 0xffff_ffff,
        });
        assert_eq!(rt; csrs, busy(), "no register at {csr:x}");
    }
}

/// Form, rd, rs1 or immediate, and the value read and written with aaaaaaaa in rs1.
static FORMS: [(u8, u8, u8, u32, Option<u32>); 12] = [
    (CSRRW, 5, 0, 0x1234_5678, Some(0xaaaa_aaaa)),
    (CSRRW, 0, 6, 0, Some(0xaaaa_aaaa)),
    (CSRRS, 0, 6, 0x1234_5678, Some(0xbabe_fefa)),
    (CSRRC, 0, 6, 0x1234_5678, Some(0x1014_5450)),
    (CSRRS, 5, 0, 0x1234_5678, None),
    (CSRRC, 5, 0, 0x1234_5678, None),
    (CSRRWI, 0, 0, 0, Some(0)),
    (CSRRWI, 5, 27, 0x1234_5678, Some(27)),
    (CSRRSI, 0, 27, 0x1234_5678, Some(0x1234_567b)),
    (CSRRCI, 0, 27, 0x1234_5678, Some(0x1234_5660)),
    (CSRRSI, 5, 0, 0x1234_5678, None),
    (CSRRCI, 5, 0, 0x1234_5678, None),
];

fn forms() -> &'static [(u8, u8, u8, u32, Option<u32>)] {
    &FORMS
}

#[test]
fn forms_read_and_write_as_their_operands_say(rt: HostRuntime) {
    for &(kind, rd, rs1, value, written) in forms() {
        let write = match written {
            Some(value) => CsrWrite::Put {
                csr: MSCRATCH,
                value,
            },
            None => CsrWrite::Nothing,
        };
        let answer = busy().access(csr_insn(kind, rd, rs1, MSCRATCH), 0xaaaa_aaaa, TIME, CMP);
        assert_eq!(rt;
            answer,
            Some((value, write)),
            "form {kind}, rd {rd}, rs1 {rs1}"
        );
    }
    for kind in [0, 4, 8] {
        assert_eq!(rt;
            busy().access(csr_insn(kind, 5, 6, MSCRATCH), 0, TIME, CMP),
            None,
            "form {kind}"
        );
    }
    let before = busy().access(csr_insn(CSRRS, 5, 0, 0x344), 0, CMP - 1, CMP);
    assert_eq!(rt; before, Some((0, CsrWrite::Nothing)), "mip before mtimecmp");
}

#[test]
fn time_reads_are_legal_reads_of_the_time(rt: HostRuntime) {
    for csr in [0x344, 0xb00, 0xb80, 0xc00, 0xc80, 0xc01, 0xc81] {
        assert!(rt;
            reads_time(csr_insn(CSRRS, 0, 0, csr)),
            "CSRRS with x0 of {csr:x}"
        );
        assert!(rt;
            reads_time(csr_insn(CSRRCI, 5, 0, csr)),
            "CSRRCI of {csr:x}"
        );
        assert!(rt;
            !reads_time(csr_insn(CSRRW, 0, 6, csr)),
            "CSRRW without a read of {csr:x}"
        );
        // The first three may be written, the read-only ones not.
        assert_eq!(rt;
            reads_time(csr_insn(CSRRW, 5, 6, csr)),
            csr < 0xc00,
            "CSRRW of {csr:x}"
        );
    }
    for csr in [0x300, 0x304, 0xb02, 0xb82, 0xc02, 0xc82, 0xb01, 0xf14] {
        assert!(rt; !reads_time(csr_insn(CSRRS, 5, 0, csr)), "{csr:x}");
    }
    assert!(rt; !reads_time(Insn::Mret));
}

/// mtvec, cause, and the handler: vectored mode moves the timer interrupt alone.
static TRAPS: [(u32, u32, u32); 5] = [
    (0x8000_0100, 0x8000_0007, 0x8000_0100),
    (0x8000_0101, 0x8000_0007, 0x8000_011c),
    (0x8000_0101, 7, 0x8000_0100),
    (0x8000_0101, 11, 0x8000_0100),
    (0xffff_fffd, 0x8000_0007, 0x0000_0018),
];

fn traps() -> &'static [(u32, u32, u32)] {
    &TRAPS
}

#[test]
fn traps_keep_the_place_and_mret_goes_back(rt: HostRuntime) {
    for &(mtvec, cause, handler) in traps() {
        let mut csrs = busy();
        csrs.mtvec = mtvec;
        assert_eq!(rt;
            csrs.trap(cause, 0x8000_0042, 0x1122_3344),
            handler,
            "mtvec {mtvec:x}, cause {cause:x}"
        );
        let mut trapped = busy();
        trapped.mtvec = mtvec;
        trapped.mie = false;
        trapped.mpie = true;
        trapped.mepc = 0x8000_0040;
        trapped.mcause = cause;
        trapped.mtval = 0x1122_3344;
        assert_eq!(rt; csrs, trapped, "mtvec {mtvec:x}, cause {cause:x}");
        assert_eq!(rt; csrs.leave(), 0x8000_0040);
        trapped.mie = true;
        assert_eq!(rt; csrs, trapped, "mtvec {mtvec:x}, cause {cause:x}");
    }
    assert!(rt; busy().timer_pending(CMP, CMP) && !busy().timer_pending(CMP - 1, CMP));
    let mut nested = busy();
    nested.trap(11, 0x8000_0040, 0);
    nested.trap(2, 0x8000_0100, 0);
    nested.leave();
    assert_eq!(rt; (nested.mie, nested.mpie), (false, true));
    assert!(rt; !nested.timer_pending(CMP, CMP) && !Csrs::new().timer_pending(CMP, CMP));
}
