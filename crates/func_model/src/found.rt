ghost use Rattle.std.specs.Prelude.{◌≡◌, unwrap_or};
ghost use Rattle.rv_decode.specs.Class.{sources_of, dest_of, class_of};
ghost use Rattle.rv_decode.specs.Fits.{Fits};
ghost use Rattle.rv_exec.specs.Bare.{bare_of, insn_in};
ghost use Rattle.mono_model.specs.Found.{destination_in, word_in, class_in, is_fence_i, known};
ghost use Rattle.mono_model.specs.Result.{is_time_csr};
ghost use Rattle.func_model.specs.Hart.{found_in, FetchedFits};

use fsim_base::{Cause, Class};
use machine_csr::reads_time;
use rv_decode::Insn;
use rv_exec::BareInsn;

/// An instruction with its word and what is read off it, found out once.
#[derive(Clone, Copy, Debug, PartialEq, Eq)]
pub struct Decoded {
    pub word: u32,
    pub insn: Insn,
    /// It without its registers, where it only computes.
    pub bare: BareInsn,
    /// The first register that it reads, and x0 where it reads none.
    pub first: u8,
    /// The second one, and x0 where it reads none.
    pub second: u8,
    /// The register that it writes.
    pub destination: Option<u8>,
    /// The same, and x0 where it writes none.
    pub written: u8,
    /// The unit that it waits for.
    pub class: Class,
}

impl Decoded {
    /// An instruction with its word.
    pub fn new(word: u32, insn: Insn) -> Decoded
        requires fits { Fits insn }
        ensures word { result.word ≡ word }
        ensures insn { result.insn ≡ insn }
        ensures bare { insn_in result.bare ≡ bare_of insn }
        ensures first { result.first ≡ unwrap_or (sources_of insn).0 0 }
        ensures second { result.second ≡ unwrap_or (sources_of insn).1 0 }
        ensures destination { result.destination ≡ dest_of insn }
        ensures written { result.written ≡ unwrap_or (dest_of insn) 0 }
        ensures class { result.class ≡ class_of insn }
    {
        let (first, second) = insn.sources();
        Decoded {
            word,
            insn,
            bare: BareInsn::of(insn),
            first: first.unwrap_or(0),
            second: second.unwrap_or(0),
            destination: insn.dest(),
            written: insn.dest().unwrap_or(0),
            class: insn.class(),
        }
    }

    /// Whether it is a FENCE.I.
    pub fn is_fence_i(&self) -> bool
        ensures fence { result ≡ is_fence_i (known self.now.word self.now.insn) }
    {
        match self.insn {
            Insn::Fence { fetch, .. } => fetch,
            _ => false,
        }
    }
}

/// What fetch finds at an address.
#[derive(Clone, Copy, Debug, PartialEq, Eq)]
pub enum Fetched {
    /// Nothing can be fetched there.
    Refused(Cause),
    /// A word that is no instruction.
    Unknown(u32),
    /// An instruction.
    Known(Decoded),
}

impl Fetched {
    /// The word, and 0 where nothing can be fetched.
    pub fn word(self) -> u32
        ensures word { result ≡ word_in (found_in self) }
    {
        match self {
            Fetched::Refused(_) => 0,
            Fetched::Unknown(word) => word,
            Fetched::Known(decoded) => decoded.word,
        }
    }

    /// The class of the instruction; what is none waits for the arithmetic unit.
    pub fn class(self) -> Class
        requires fits { FetchedFits self }
        ensures class { result ≡ class_in (found_in self) }
    {
        match self {
            Fetched::Known(decoded) => decoded.class,
            _ => Class::Alu,
        }
    }

    /// The register that the instruction writes.
    pub fn destination(self) -> Option<u8>
        requires fits { FetchedFits self }
        ensures register { result ≡ destination_in (found_in self) }
    {
        match self {
            Fetched::Known(decoded) => decoded.destination,
            _ => None,
        }
    }

    /// Whether it is a FENCE.I.
    pub fn is_fence_i(self) -> bool
        ensures fence { result ≡ is_fence_i (found_in self) }
    {
        match self {
            Fetched::Known(decoded) => decoded.is_fence_i(),
            _ => false,
        }
    }

    /// Whether it is an instruction of Zicsr that reads the time.
    pub fn reads_time(self) -> bool
        ensures reads { result ≡ is_time_csr (found_in self) }
    {
        match self {
            Fetched::Known(decoded) => reads_time(decoded.insn),
            _ => false,
        }
    }
}
