// What a placement tool calls: four functions over byte slices, each of which answers with a struct of numbers. Crate placement_c exports them to C.
#![tactic(auto)]

ghost use Rattle.std.specs.Prelude.{◌≡◌, length};
ghost use Rattle.tagged.specs.Answers.{reply_of, translation_reply, Promise};
ghost use Rattle.netlist.specs.Run as netlist_run;
ghost use Rattle.verilog.specs.Answer.{module_answer};
ghost use Rattle.verilog.specs.Run as module_run;
ghost use Rattle.translate.specs.Answer.{translate_answer, translate_buffer};

use tagged::answers::Reply;

// Is the file an accepted module? Refusals 1 to 11.
pub fn skodderym_check(file: &[u8]) -> Reply
    ensures { result ≡ reply_of (module_answer file.now) }
{
    Reply::from(verilog_check::check(file))
}

// The netlist of a module, into a buffer: refusals 1 to 13.
pub fn skodderym_translate(file: &[u8], out: &mut [u8]) -> Reply
    ensures { Promise (translation_reply (translate_answer file.now (length out.old)))
        (translate_buffer file.now out.old) result out.new }
{
    Reply::from(translator::translate(file, out))
}

// One cycle of a module, from a row into another: refusals 1 to 11 and 14.
pub fn skodderym_run_module(file: &[u8], row: &[u8], next: &mut [u8]) -> Reply
    ensures { Promise (reply_of (module_run.run_answer file.now row.now (length next.old)))
        (module_run.run_leaves file.now row.now next.old) result next.new }
{
    Reply::from(verilog_run::run(file, row, next))
}

// One cycle of a netlist, from a row into another: refusals 1 to 8, 12 and 14.
pub fn skodderym_run_netlist(file: &[u8], row: &[u8], next: &mut [u8]) -> Reply
    ensures { Promise (reply_of (netlist_run.run_answer file.now row.now (length next.old)))
        (netlist_run.run_leaves file.now row.now next.old) result next.new }
{
    Reply::from(netlist::run(file, row, next))
}
