//! Sessions on two short runs. What is written is that of an independent simulator, as it was read
//! by gdb 13.
#![tactic(auto, unfolding(crate::proofs::Computing::computing))]

ghost use Rattle.std.specs.Prelude.{◌≡◌, [], ◌++◌, codes, length};
ghost use Rattle.gdb_model.specs.Description.{description};
ghost use Rattle.gdb_model.specs.Examples.{history, interrupted_run, short_run};
ghost use Rattle.gdb_model.specs.Talk.{session_text};

/// Nothing is written before a byte was read.
pub fn no_byte()
    ensures text { session_text history short_run [] ≡ [] }
{}

/// Why the run stands where it does.
pub fn reason()
    ensures text { session_text history short_run (codes "$?#3f") ≡ codes "+$T05#b9" }
{}

/// A packet with a wrong sum.
pub fn wrong_sum()
    ensures text { session_text history short_run (codes "$?#00") ≡ codes "-" }
{}

/// No more acknowledgments, a step, pc, and steps back up to the beginning.
pub fn step_and_back()
    ensures text { session_text history short_run
        (codes "$QStartNoAckMode#b0$vCont;s#b8$p20#d2$bs#d5$bs#d5")
        ≡ codes "+$OK#9a$T05#b9$04000080#8c$T05#b9$T05replaylog:begin;#02" }
{}

/// To a breakpoint, to the end, back to the breakpoint, and to the beginning.
pub fn breakpoint_both_ways()
    ensures text { session_text history short_run
        (codes "$QStartNoAckMode#b0$Z0,80000008,4#a6$vCont;c#a8$vCont;c#a8$bc#c5$bc#c5")
        ≡ codes "+$OK#9a$OK#9a$T05#b9$O666173743a20706173730a#20$T05replaylog:end;#34"
        ++ codes "$T05#b9$T05replaylog:begin;#02" }
{}

/// Before a watched store, also where it stands there already; and by it once it isn't watched.
pub fn watched_store()
    ensures text { session_text history short_run
        (codes "$QStartNoAckMode#b0$Z2,100000,4#39$vCont;c#a8$vCont;s#b8$bs#d5"
        ++ codes "$z2,100000,4#59$c#63")
        ≡ codes "+$OK#9a$OK#9a$T05watch:100000;#66$T05watch:100000;#66$T05#b9$OK#9a"
        ++ codes "$O666173743a20706173730a#20$T05replaylog:end;#34" }
{}

/// RAM, the console, the timer's comparator and time, an address of nothing; and writes, of which
/// those that change something are refused.
pub fn memory()
    ensures read { session_text history short_run
        (codes "$QStartNoAckMode#b0$m80000000,8#59$m10000003,3#50$m2004000,4#23"
        ++ codes "$m200bff8,2#c3$m0,4#fd")
        ≡ codes "+$OK#9a$b702100037530000#4e$000060#26$ffffffff#30$0000#c0$E01#a6" }
    ensures written { session_text history short_run
        (codes "$QStartNoAckMode#b0$M80000000,2:b702#68$M80000000,1:00#cc$P5=00000000#42")
        ≡ codes "+$OK#9a$OK#9a$E01#a6$OK#9a" }
{}

/// `where`, and a run to a position; mcycle there is its number.
pub fn monitor()
    ensures place { session_text history short_run
        (codes "$QStartNoAckMode#b0$s#73$qRcmd,7768657265#3e")
        ≡ codes "+$OK#9a$T05#b9$O7374657020312c206f6c6465737420302c206f757470757420302062797465732c"
        ++ codes "2072756e6e696e670a#48$OK#9a" }
    ensures mark { session_text history short_run
        (codes "$QStartNoAckMode#b0$qRcmd,73746f702033#c3$c#63$pb41#37")
        ≡ codes "+$OK#9a$OK#9a$T05#b9$03000000#83" }
{}

/// The handler's first instruction has a position; mepc and mcause there; and a step back.
pub fn timer_interrupt()
    ensures text { session_text history interrupted_run
        (codes "$QStartNoAckMode#b0$Z0,8000005c,4#d6$vCont;c#a8$p20#d2$p382#0d$p383#0e"
        ++ codes "$bs#d5$p20#d2")
        ≡ codes "+$OK#9a$OK#9a$T05#b9$5c000080#c0$28000080#92$07000080#8f$T05#b9$24000080#8e" }
{}

/// The size of the target description, and a read at its end.
pub fn target_description()
    ensures size { length description ≡ 3775 }
    ensures end { session_text history short_run
        (codes "$QStartNoAckMode#b0$qXfer:features:read:target.xml:ebf,40#ac")
        ≡ codes "+$OK#9a$l#6c" }
{}
