//! Where it is written what passes on connections.

ghost use Rattle.std.specs.Prelude.{◌↔◌, IsNone, IfOk};
ghost use Rattle.recorder.specs.Noted.{IsQuiet};

use crate::backlog::Backlog;
use crate::fault::RecorderFault;
use crate::notes::{Entry, Wish};
use crate::outputs::{Lines, Outputs, UnwrittenFile};
use crate::transcript::{Transcript, name_of};
use capture::file_head;
use std::alloc::{AllocError, Global};
use std::fs::File;
use std::io::{ErrorKind, Write};
use std::rt::Files;
use std::sync::atomic::{AtomicBool, AtomicU64, Ordering};
use std::sync::{Arc, Mutex, Wait};
use std::thread::Threads;
use std::{fs, io};
use trace::Form;
use words::{TraceForm, Tracing};

/// Where it is written what passes on connections.
#[derive(Drop)]
pub struct Recorder {
    pub(crate) alloc: Global,
    pub(crate) wish: Wish,
    /// The folder for the bytes of each connection.
    folder: Option<String>,
    /// How many connections have begun that have no number otherwise.
    begun: AtomicU64,
    outputs: Mutex<Outputs>,
    /// The lines that wait for standard error, where they go there.
    backlog: Option<Arc<Backlog>>,
    /// Whether something couldn't be written.
    has_failed: AtomicBool,
}

impl Recorder {
    /// Makes the files that the words name, and the folder, if they name any. None if nothing is to
    /// be written. Lines for standard error get a thread, so the caller has to `finish` the
    /// recorder.
    ///
    /// # Errors
    ///
    /// `NotMade` if a file, the folder or the thread can't be made, or if two files have one name;
    /// standard error says why.
    pub fn open<R>(
        rt: &R,
        alloc: Global,
        words: Tracing<'_>,
        folder: Option<&str>,
    ) -> Result<Option<Arc<Recorder>>, RecorderFault>
    where
        R: Files<File = File> + Eprint,
        R: Threads + Wait + Copy + Send + Sync + Drop + 'static,
        ensures none { IfOk result (λ made. IsNone made ↔ IsQuiet words.entry folder.entry) }
    {
        if words.form.is_none() && words.capture.is_none() && folder.is_none() {
            return Ok(None);
        }
        if has_one_name(words) {
            let _said = eprintln!(rt; "interop: the trace and the capture can't be one file");
            return Err(RecorderFault::NotMade);
        }
        let wish = Wish {
            form: words.form.map(form_of),
            has_capture: words.capture.is_some(),
        };
        let backlog = backlog_of(rt, alloc, words)?;
        let outputs = Outputs {
            lines: lines_of(rt, words, &backlog)?,
            capture: match words.capture {
                Some(name) => Some(new_capture(rt, name)?),
                None => None,
            },
        };
        let folder = match folder {
            Some(name) => Some(new_folder(rt, alloc, name)?),
            None => None,
        };
        let recorder = Recorder {
            alloc,
            wish,
            folder,
            begun: AtomicU64::new(0),
            outputs: Mutex::new(outputs),
            backlog,
            has_failed: AtomicBool::new(false),
        };
        Ok(Some(Arc::new(alloc, recorder)?))
    }

    /// No more comes. It returns once the lines that wait for standard error are printed.
    pub fn finish(&self, rt: &impl Wait) {
        if let Some(backlog) = &self.backlog {
            backlog.finish(rt);
        }
    }

    /// Whether something couldn't be written.
    pub fn has_failed(&self) -> bool {
        self.has_failed.load(Ordering::SeqCst) || self.has_failed_lines()
    }

    /// Whether a line couldn't be printed on standard error.
    fn has_failed_lines(&self) -> bool {
        match &self.backlog {
            Some(backlog) => backlog.has_failed(),
            None => false,
        }
    }

    /// The file with the bytes of the connection of this number, where there is one.
    pub fn file_of(&self, number: u64) -> Result<Option<String>, AllocError> {
        match &self.folder {
            Some(folder) => Ok(Some(name_of(self.alloc, folder.as_str(), number)?)),
            None => Ok(None),
        }
    }

    /// The number of the next connection, if it has no other.
    pub(crate) fn next(&self) -> u64 {
        self.begun.fetch_add(1, Ordering::SeqCst).wrapping_add(1)
    }

    /// The files for the bytes of a connection, where there are to be any.
    pub(crate) fn transcript<R>(&self, rt: &R, number: u64) -> Option<Transcript>
    where
        R: Files<File = File> + Eprint,
    {
        let folder = self.folder.as_ref()?;
        match Transcript::create(rt, self.alloc, folder.as_str(), number) {
            Ok(bytes) => Some(bytes),
            Err(unwritten) => {
                self.fail(rt, unwritten);
                None
            }
        }
    }

    /// Writes what there is to write, unless something couldn't be written before.
    pub(crate) fn write<R: Wait + Eprint>(&self, rt: &R, entry: Result<Entry, AllocError>) {
        if self.has_failed() {
            return;
        }
        let written = match entry {
            Ok(entry) => {
                let mut outputs = self.outputs.lock(rt);
                outputs.write(rt, &entry)
            }
            Err(AllocError) => Err(UnwrittenFile::new(
                "what passes",
                io::Error::from(ErrorKind::OutOfMemory),
            )),
        };
        if let Err(unwritten) = written {
            self.fail(rt, unwritten);
        }
    }

    /// Something couldn't be written. The first time that is said.
    pub(crate) fn fail(&self, rt: &impl Eprint, unwritten: UnwrittenFile) {
        if self.has_failed.swap(true, Ordering::SeqCst) {
            return;
        }
        let UnwrittenFile { what, why } = unwritten;
        // The exit status reports it even if nothing can be written here.
        let _said = eprintln!(rt; "interop: {what} can't be written: {why}");
    }
}

fn form_of(form: TraceForm) -> Form {
    match form {
        TraceForm::Short => Form::Short,
        TraceForm::Full => Form::Full,
    }
}

/// Whether lines and a capture would go to one file.
fn has_one_name(words: Tracing<'_>) -> bool {
    match (words.lines, words.capture) {
        (Some(lines), Some(capture)) => lines == capture,
        _ => false,
    }
}

/// The lines that wait for standard error, where they go there.
fn backlog_of<R>(
    rt: &R,
    alloc: Global,
    words: Tracing<'_>,
) -> Result<Option<Arc<Backlog>>, RecorderFault>
where
    R: Threads + Wait + Eprint + Copy + Send + Sync + Drop + 'static,
{
    if !words.is_shown() {
        return Ok(None);
    }
    match Backlog::begin(rt, alloc) {
        Ok(backlog) => Ok(Some(backlog)),
        Err(why) => Err(unmade(rt, "standard error", &why)),
    }
}

/// Where lines are written, if there are any.
fn lines_of<R: Files<File = File> + Eprint>(
    rt: &R,
    words: Tracing<'_>,
    backlog: &Option<Arc<Backlog>>,
) -> Result<Lines, RecorderFault> {
    if let Some(backlog) = backlog {
        return Ok(Lines::Standard(Arc::try_clone(backlog)?));
    }
    match (words.form, words.lines) {
        (Some(_), Some(name)) => Ok(Lines::File(create(rt, name)?)),
        _ => Ok(Lines::Nowhere),
    }
}

/// Makes the file of a capture that has no records yet.
fn new_capture<R: Files<File = File> + Eprint>(rt: &R, name: &str) -> Result<File, RecorderFault> {
    let mut file = create(rt, name)?;
    match file.write_all(&file_head()) {
        Ok(()) => Ok(file),
        Err(why) => Err(unmade(rt, name, &why)),
    }
}

/// Makes a folder, and those above it, where it isn't there.
fn new_folder<R: Files + Eprint>(
    rt: &R,
    alloc: Global,
    name: &str,
) -> Result<String, RecorderFault> {
    match fs::create_dir_all(rt, name) {
        Ok(()) => Ok(String::from_str(alloc, name)?),
        Err(why) => Err(unmade(rt, name, &why)),
    }
}

/// Makes a file, or empties it.
fn create<R: Files<File = File> + Eprint>(rt: &R, name: &str) -> Result<File, RecorderFault> {
    match fs::create(rt, name) {
        Ok(file) => Ok(file),
        Err(why) => Err(unmade(rt, name, &why)),
    }
}

fn unmade(rt: &impl Eprint, name: &str, why: &io::Error) -> RecorderFault {
    let _said = eprintln!(rt; "interop: {name} can't be written: {why}");
    RecorderFault::NotMade
}
