//! Finds the folder of the page.

use crate::fault::PageFault;
use std::alloc::AllocError;
use std::rt::Files;
use std::{env, fs};

/// The file of the page that names the others.
const INDEX: &str = "index.html";

/// The folders of the page, relative to the folder of the program: in an installation, and in the
/// tree in which the program was built.
const BESIDE: [&str; 2] = ["../share/geostation/viewer", "../../../viewer"];

/// The place of the page.
#[derive(Drop)]
pub(crate) struct PagePlace {
    /// Its folder.
    pub(crate) folder: String,
    /// The path of the file that names the others.
    pub(crate) index: String,
}

/// Returns the folder of the page: the given one, and without one the first of the known folders
/// that has the page. `NoPage` if none has it, `OutOfMemory` if an allocation failed.
pub(crate) fn find_page<'a, R: Files + AllocGlobal>(
    rt: &R,
    given: Option<&str>,
) -> Result<PagePlace, PageFault<'a>> {
    let found = match given {
        Some(folder) => Some(String::from_str(rt.alloc(), folder)?),
        None => beside_program(rt)?,
    };
    let Some(folder) = found else {
        return Err(PageFault::NoPage);
    };
    let index = path_in(rt, folder.as_str(), INDEX)?;
    Ok(PagePlace { folder, index })
}

/// Returns the first known folder that has the page, relative to the program. The system says where
/// the program is.
fn beside_program<R: Files + AllocGlobal>(rt: &R) -> Result<Option<String>, AllocError> {
    let Ok(program) = env::current_exe(rt) else {
        return Ok(None);
    };
    let Some(home) = program.parent() else {
        return Ok(None);
    };
    for place in &BESIDE {
        let folder = format!(in rt.alloc(); "{}/{place}", home.as_str())?;
        let index = path_in(rt, folder.as_str(), INDEX)?;
        if fs::metadata(rt, index.as_str()).is_ok() {
            return Ok(Some(folder));
        }
    }
    Ok(None)
}

/// The path of a file in a folder.
pub(crate) fn path_in<R: AllocGlobal>(
    rt: &R,
    folder: &str,
    name: &str,
) -> Result<String, AllocError> {
    format!(in rt.alloc(); "{folder}/{name}")
}
