//! The description of the target, which GDB asks for in parts.
ghost use Rattle.std.specs.Prelude.{◌≡◌};
ghost use Rattle.gdb_model.specs.Description.{description};
ghost use Rattle.gdb_model.specs.Talk.{part_text};

use gdb_packets::{CONTENT_LIMIT, Reply};

/// How many bytes of it fit in a packet, after `m` or `l`.
const MOST: u64 = (CONTENT_LIMIT - 1) as u64;

/// The description: which registers there are.
const DESCRIPTION: &[u8] = b"<?xml version=\"1.0\"?>\n\
<!DOCTYPE target SYSTEM \"gdb-target.dtd\">\n\
<target version=\"1.0\">\n\
<architecture>riscv:rv32</architecture>\n\
<osabi>none</osabi>\n\
<feature name=\"org.gnu.gdb.riscv.cpu\">\n\
<reg name=\"zero\" bitsize=\"32\" type=\"int\" regnum=\"0\"/>\n\
<reg name=\"ra\" bitsize=\"32\" type=\"code_ptr\" regnum=\"1\"/>\n\
<reg name=\"sp\" bitsize=\"32\" type=\"data_ptr\" regnum=\"2\"/>\n\
<reg name=\"gp\" bitsize=\"32\" type=\"data_ptr\" regnum=\"3\"/>\n\
<reg name=\"tp\" bitsize=\"32\" type=\"data_ptr\" regnum=\"4\"/>\n\
<reg name=\"t0\" bitsize=\"32\" type=\"int\" regnum=\"5\"/>\n\
<reg name=\"t1\" bitsize=\"32\" type=\"int\" regnum=\"6\"/>\n\
<reg name=\"t2\" bitsize=\"32\" type=\"int\" regnum=\"7\"/>\n\
<reg name=\"fp\" bitsize=\"32\" type=\"data_ptr\" regnum=\"8\"/>\n\
<reg name=\"s1\" bitsize=\"32\" type=\"int\" regnum=\"9\"/>\n\
<reg name=\"a0\" bitsize=\"32\" type=\"int\" regnum=\"10\"/>\n\
<reg name=\"a1\" bitsize=\"32\" type=\"int\" regnum=\"11\"/>\n\
<reg name=\"a2\" bitsize=\"32\" type=\"int\" regnum=\"12\"/>\n\
<reg name=\"a3\" bitsize=\"32\" type=\"int\" regnum=\"13\"/>\n\
<reg name=\"a4\" bitsize=\"32\" type=\"int\" regnum=\"14\"/>\n\
<reg name=\"a5\" bitsize=\"32\" type=\"int\" regnum=\"15\"/>\n\
<reg name=\"a6\" bitsize=\"32\" type=\"int\" regnum=\"16\"/>\n\
<reg name=\"a7\" bitsize=\"32\" type=\"int\" regnum=\"17\"/>\n\
<reg name=\"s2\" bitsize=\"32\" type=\"int\" regnum=\"18\"/>\n\
<reg name=\"s3\" bitsize=\"32\" type=\"int\" regnum=\"19\"/>\n\
<reg name=\"s4\" bitsize=\"32\" type=\"int\" regnum=\"20\"/>\n\
<reg name=\"s5\" bitsize=\"32\" type=\"int\" regnum=\"21\"/>\n\
<reg name=\"s6\" bitsize=\"32\" type=\"int\" regnum=\"22\"/>\n\
<reg name=\"s7\" bitsize=\"32\" type=\"int\" regnum=\"23\"/>\n\
<reg name=\"s8\" bitsize=\"32\" type=\"int\" regnum=\"24\"/>\n\
<reg name=\"s9\" bitsize=\"32\" type=\"int\" regnum=\"25\"/>\n\
<reg name=\"s10\" bitsize=\"32\" type=\"int\" regnum=\"26\"/>\n\
<reg name=\"s11\" bitsize=\"32\" type=\"int\" regnum=\"27\"/>\n\
<reg name=\"t3\" bitsize=\"32\" type=\"int\" regnum=\"28\"/>\n\
<reg name=\"t4\" bitsize=\"32\" type=\"int\" regnum=\"29\"/>\n\
<reg name=\"t5\" bitsize=\"32\" type=\"int\" regnum=\"30\"/>\n\
<reg name=\"t6\" bitsize=\"32\" type=\"int\" regnum=\"31\"/>\n\
<reg name=\"pc\" bitsize=\"32\" type=\"code_ptr\" regnum=\"32\"/>\n\
</feature>\n\
<feature name=\"org.gnu.gdb.riscv.csr\">\n\
<reg name=\"mstatus\" bitsize=\"32\" type=\"uint32\" regnum=\"833\"/>\n\
<reg name=\"misa\" bitsize=\"32\" type=\"uint32\" regnum=\"834\"/>\n\
<reg name=\"mie\" bitsize=\"32\" type=\"uint32\" regnum=\"837\"/>\n\
<reg name=\"mtvec\" bitsize=\"32\" type=\"code_ptr\" regnum=\"838\"/>\n\
<reg name=\"mstatush\" bitsize=\"32\" type=\"uint32\" regnum=\"849\"/>\n\
<reg name=\"mcountinhibit\" bitsize=\"32\" type=\"uint32\" regnum=\"865\"/>\n\
<reg name=\"mscratch\" bitsize=\"32\" type=\"uint32\" regnum=\"897\"/>\n\
<reg name=\"mepc\" bitsize=\"32\" type=\"code_ptr\" regnum=\"898\"/>\n\
<reg name=\"mcause\" bitsize=\"32\" type=\"uint32\" regnum=\"899\"/>\n\
<reg name=\"mtval\" bitsize=\"32\" type=\"uint32\" regnum=\"900\"/>\n\
<reg name=\"mip\" bitsize=\"32\" type=\"uint32\" regnum=\"901\"/>\n\
<reg name=\"pmpcfg0\" bitsize=\"32\" type=\"uint32\" regnum=\"993\"/>\n\
<reg name=\"pmpaddr0\" bitsize=\"32\" type=\"uint32\" regnum=\"1009\"/>\n\
<reg name=\"mcycle\" bitsize=\"32\" type=\"uint32\" regnum=\"2881\"/>\n\
<reg name=\"minstret\" bitsize=\"32\" type=\"uint32\" regnum=\"2883\"/>\n\
<reg name=\"mcycleh\" bitsize=\"32\" type=\"uint32\" regnum=\"3009\"/>\n\
<reg name=\"minstreth\" bitsize=\"32\" type=\"uint32\" regnum=\"3011\"/>\n\
<reg name=\"cycle\" bitsize=\"32\" type=\"uint32\" regnum=\"3137\"/>\n\
<reg name=\"time\" bitsize=\"32\" type=\"uint32\" regnum=\"3138\"/>\n\
<reg name=\"instret\" bitsize=\"32\" type=\"uint32\" regnum=\"3139\"/>\n\
<reg name=\"cycleh\" bitsize=\"32\" type=\"uint32\" regnum=\"3265\"/>\n\
<reg name=\"timeh\" bitsize=\"32\" type=\"uint32\" regnum=\"3266\"/>\n\
<reg name=\"instreth\" bitsize=\"32\" type=\"uint32\" regnum=\"3267\"/>\n\
<reg name=\"mvendorid\" bitsize=\"32\" type=\"uint32\" regnum=\"3922\"/>\n\
<reg name=\"marchid\" bitsize=\"32\" type=\"uint32\" regnum=\"3923\"/>\n\
<reg name=\"mimpid\" bitsize=\"32\" type=\"uint32\" regnum=\"3924\"/>\n\
<reg name=\"mhartid\" bitsize=\"32\" type=\"uint32\" regnum=\"3925\"/>\n\
<reg name=\"mconfigptr\" bitsize=\"32\" type=\"uint32\" regnum=\"3926\"/>\n\
</feature>\n\
</target>\n\
";

/// So many bytes of the description from a place on, after `l` where they reach its end and `m`
/// where they don't.
pub fn description_reply(place: u64, size: u64) -> Reply
    ensures text { result ≡ part_text description place size }
{
    part_reply(DESCRIPTION, place, size)
}

/// The same of any text.
fn part_reply(text: &[u8], place: u64, size: u64) -> Reply
    ensures text { result ≡ part_text text.now place size }
{
    let start = place.min(text.len() as u64) as usize;
    let left = text.len() - start;
    let count = size.min(MOST).min(left as u64) as usize;
    let mut reply = Reply::new();
    reply.byte(if count == left { b'l' } else { b'm' });
    reply.bytes(&text[start..start + count]);
    reply
}
