// The parts of a module, as the passes take them.
ghost use Rattle.std.specs.Prelude.{◌+◌, ◌≤◌, length};
ghost use Rattle.tagged.specs.Limits.{most_variables, longest_module};

use verilog_check::assignments::First;

// The bytes of a module's declarations as they stand (declared) and of its processes (list), the widths of its variables, which of them are registers, and
// the first assignments to them.
#[derive(Clone, Copy, Debug)]
pub struct Parts<'a> {
    pub declared: &'a [u8],
    pub list: &'a [u8],
    pub widths: &'a [u8],
    pub marks: &'a [bool],
    pub firsts: &'a [Option<First>],
    ghost short: { length declared.now + length list.now ≤ longest_module },
    ghost few_widths: { length widths.now ≤ most_variables },
    ghost few_marks: { length marks.now ≤ most_variables },
}
