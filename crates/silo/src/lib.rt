// What a host sees: the exported calls over the crates below. `include/silo.h` declares them for C.
#![tactic(auto)]

ghost use Rattle.std.specs.Prelude.{◌≡◌, length};
ghost use Rattle.records.specs.Rules.{first_unmet};
ghost use Rattle.answers.specs.Length.{answers_length, length_number};
ghost use Rattle.catalogue.specs.Table.{catalogue_rules, catalogue_after};
ghost use Rattle.governing.specs.Strakes.{governs, governs_number};
ghost use Rattle.cosine.specs.program.Table.{entry};
ghost use Rattle.exponential.specs.program.Table.{table};
ghost use Rattle.janssen.specs.program.Pressure.{computed_by};
ghost use Rattle.answers.specs.Promise.{Promise};
ghost use Rattle.page.specs.Page.{page_length};
ghost use Rattle.page.specs.Promise.{PagePromise};
ghost use Rattle.shell.specs.Promise.{ShellPromise};
ghost use Rattle.reach.specs.Promise.{DepthPromise, DepthsPromise};

use answers::length::length_number;
use records::refusal::answer;

// 0 with the answer list filled, or the number of the first refusal with the list as it was.
#[unsafe(no_mangle)]
pub extern "C" fn silo_loads(sheet: &[u8], answers: &mut [u32]) -> u32
    ensures { Promise computed_by table sheet.now answers.old result answers.new }
{
    answer(answers::loads(sheet, answers))
}

// 2^32 and the length due of the answer list, or the number of the first refusal.
#[unsafe(no_mangle)]
pub extern "C" fn silo_answers_length(sheet: &[u8]) -> u64
    ensures { result ≡ length_number (answers_length sheet.now) }
{
    length_number(answers::length::answers_length(sheet))
}

// 2^32 and the page's length in bytes, or the number of the first refusal.
#[unsafe(no_mangle)]
pub extern "C" fn silo_page_length(sheet: &[u8]) -> u64
    ensures { result ≡ length_number (page_length sheet.now) }
{
    length_number(page::page_length(sheet))
}

// 0 with the page at the buffer's start and the bytes past it as they were, or the number of the first refusal with the buffer as it was.
#[unsafe(no_mangle)]
pub extern "C" fn silo_page(sheet: &[u8], page: &mut [u8]) -> u32
    ensures { PagePromise computed_by table sheet.now page.old result page.new }
{
    answer(page::page(sheet, page))
}

// 0 with the reply list filled, the patch round the shell at a depth in mm below the brim; or the number of the first refusal with the list as it was.
#[unsafe(no_mangle)]
pub extern "C" fn silo_shell_patch(sheet: &[u8], depth: u32, reply: &mut [i32]) -> u32
    ensures { ShellPromise computed_by table entry sheet.now depth reply.old result reply.new }
{
    answer(shell::shell_patch(sheet, depth, reply))
}

// 2^32 and the greatest depth, mm below the brim, at which p_he is not above a pressure in Pa; or the number of the first refusal.
#[unsafe(no_mangle)]
pub extern "C" fn silo_depth_for(sheet: &[u8], pressure: u32) -> u64
    ensures { DepthPromise computed_by table sheet.now pressure result }
{
    length_number(reach::depth_for(sheet, pressure))
}

// 0 with such a depth, mm below the brim, for each of 1 to 32 pressures in Pa that never fall; or the number of the first refusal with the list as it was.
#[unsafe(no_mangle)]
pub extern "C" fn silo_depths_for(sheet: &[u8], pressures: &[u32], depths: &mut [u32]) -> u32
    ensures { DepthsPromise computed_by table sheet.now pressures.now depths.old result depths.new }
{
    answer(reach::depths_for(sheet, pressures, depths))
}

// 0 with the product record of a catalogue row and wall written, or 15 or 16 with the buffer as it was.
#[unsafe(no_mangle)]
pub extern "C" fn silo_catalogue(row: u32, wall: u32, record: &mut [u8]) -> u32
    ensures answer { result ≡ first_unmet (catalogue_rules row wall (length «record».old)) }
    ensures buffer { «record».new ≡ catalogue_after row wall «record».old }
{
    answer(catalogue::catalogue(row, wall, record))
}

// Of two strake lists the one that governs: 1 the first, 2 the second, 0 an empty part of the first.
#[unsafe(no_mangle)]
pub extern "C" fn silo_governing(first: &[u32], second: &[u32]) -> u32
    ensures { result ≡ governs_number (governs first.now second.now) }
{
    governing::number(governing::which(first, second))
}
