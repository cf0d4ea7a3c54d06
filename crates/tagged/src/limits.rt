// The limits, each as a kind of number that lies within it, with what making one answers and the greatest.
ghost use Rattle.std.specs.Prelude.{◌≡◌};
ghost use Rattle.words.specs.Limited.{number_in};
ghost use Rattle.tagged.specs.Limits.{deepest, most_cells, longest_name, most_variables, most_processes, longest_module, longest_netlist};
ghost use Rattle.tagged.specs.Made.{made_depth, made_cells, made_name, made_variables, made_processes, made_module_file, made_netlist_file};

use words::limits::{Limited, Limits};

// How deep fields may lie in one another: the outer field has depth 1.
pub const DEEPEST: usize = 32;

pub type Depth = Limited<0, DEEPEST>;

// A depth of so many levels, if fields may lie so deep.
pub fn made_depth(levels: usize) -> Option<Depth>
    ensures { number_in result ≡ number_in (made_depth levels) }
{
    Depth::new(levels)
}

// The greatest depth.
pub fn deepest() -> usize
    ensures { result ≡ deepest }
{
    Depth::MAX
}

// How many cells a netlist may have.
pub const MOST_CELLS: usize = 1024;

pub type Cells = Limited<0, MOST_CELLS>;

// A count of cells, if a netlist may have so many.
pub fn made_cells(count: usize) -> Option<Cells>
    ensures { number_in result ≡ number_in (made_cells count) }
{
    Cells::new(count)
}

// The greatest count of cells.
pub fn most_cells() -> usize
    ensures { result ≡ most_cells }
{
    Cells::MAX
}

// How long a name is.
pub const LONGEST_NAME: usize = 24;

pub type Name = Limited<1, LONGEST_NAME>;

// The length of a name, if a name may have it.
pub fn made_name(length: usize) -> Option<Name>
    ensures { number_in result ≡ number_in (made_name length) }
{
    Name::new(length)
}

// The greatest length of a name.
pub fn longest_name() -> usize
    ensures { result ≡ longest_name }
{
    Name::MAX
}

// How many variables, inputs and registers together, a file may declare.
pub const MOST_VARIABLES: usize = 64;

pub type Variables = Limited<0, MOST_VARIABLES>;

// A count of variables, if a file may declare so many.
pub fn made_variables(count: usize) -> Option<Variables>
    ensures { number_in result ≡ number_in (made_variables count) }
{
    Variables::new(count)
}

// The greatest count of variables.
pub fn most_variables() -> usize
    ensures { result ≡ most_variables }
{
    Variables::MAX
}

// How many processes a module may have.
pub const MOST_PROCESSES: usize = 8;

pub type Processes = Limited<0, MOST_PROCESSES>;

// A count of processes, if a module may have so many.
pub fn made_processes(count: usize) -> Option<Processes>
    ensures { number_in result ≡ number_in (made_processes count) }
{
    Processes::new(count)
}

// The greatest count of processes.
pub fn most_processes() -> usize
    ensures { result ≡ most_processes }
{
    Processes::MAX
}

// How short a file of either kind is.
pub const SHORTEST_FILE: usize = 3;

// How long a module file is.
pub const LONGEST_MODULE: usize = 16384;

pub type ModuleFile = Limited<SHORTEST_FILE, LONGEST_MODULE>;

// The length of a module file, if one may have it.
pub fn made_module_file(length: usize) -> Option<ModuleFile>
    ensures { number_in result ≡ number_in (made_module_file length) }
{
    ModuleFile::new(length)
}

// The greatest length of a module file.
pub fn longest_module() -> usize
    ensures { result ≡ longest_module }
{
    ModuleFile::MAX
}

// How long a netlist file is.
pub const LONGEST_NETLIST: usize = 32768;

pub type NetlistFile = Limited<SHORTEST_FILE, LONGEST_NETLIST>;

// The length of a netlist file, if one may have it.
pub fn made_netlist_file(length: usize) -> Option<NetlistFile>
    ensures { number_in result ≡ number_in (made_netlist_file length) }
{
    NetlistFile::new(length)
}

// The greatest length of a netlist file.
pub fn longest_netlist() -> usize
    ensures { result ≡ longest_netlist }
{
    NetlistFile::MAX
}
