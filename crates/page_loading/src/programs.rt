//! The programs of a page's scripts, in order.
ghost use Rattle.std.specs.Prelude.{◌≤◌, length, IfOk, All};
ghost use Rattle.page_reader.specs.Bounds.{page_bytes};
ghost use Rattle.page_reader.specs.Texts.{IsText};
ghost use Rattle.js_tree.specs.Valid.{IsValid};
ghost use Rattle.page_loading.specs.Loading.{ProgramSays, ProgramsSay};

use crate::fault::LoadFault;
use js_parser::parse;
use js_tree::Program;
use page_reader::ScriptText;
use std::alloc::Global;

/// Reads the programs of the scripts of a page, in order.
///
/// # Errors
///
/// `Script` exactly where a script is not a program: the number and the fault of the first such. Or
/// `NoMemory`.
pub(crate) fn programs_of(
    alloc: Global,
    page: &str,
    scripts: &[ScriptText],
) -> Result<Vec<Program>, LoadFault>
    requires few { length page.now ≤ page_bytes }
    requires texts { All (IsText page.now) scripts.now }
    ensures says { ProgramsSay page.now scripts.now result }
    ensures valid { IfOk result (λ programs. All IsValid programs.items) }
{
    let mut programs = Vec::new(alloc);
    for script in scripts {
        let program = program_of(alloc, page, *script)?;
        programs.push(program)?;
    }
    Ok(programs)
}

/// The program of one script of a page.
fn program_of(alloc: Global, page: &str, script: ScriptText) -> Result<Program, LoadFault>
    requires few { length page.now ≤ page_bytes }
    requires text { IsText page.now script }
    ensures says { ProgramSays page.now script result }
    ensures valid { IfOk result IsValid }
{
    match parse(alloc, &page[script.at as usize..script.end as usize]) {
        Ok(program) => Ok(program),
        Err(fault) => Err(LoadFault::of_script(script.index, fault)),
    }
}
