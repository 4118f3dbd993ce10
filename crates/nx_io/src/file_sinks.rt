// A sink over a writer that may write to a file, which is then synced.
ghost use Rattle.std.specs.Prelude.{◌<◌, ◌≡◌, ◌≤◌, [], length};
ghost use Rattle.nx_io.specs.Readers.{HandsTo};
ghost use Rattle.nx_io.specs.Streams.{Writes, WritesWithin, faults_after_reach, faults_after_write, synced_after};

use crate::standard::StdSink;
use crate::streams::{Put, Reach, Sink};
use std::fs::{self, Files, OpenFile, OpenOptions};
use std::io::{self, ErrorKind, Write};
use std::marker::Model;

/// Where the bytes of a writer last.
#[derive(Drop)]
enum Disk<F> {
    /// Nowhere: it writes to no file.
    Nowhere,
    /// In this file.
    File(F),
    /// In a file that could not be opened, or it could not be found out.
    Unknown,
    /// There is nothing that it writes to, so whatever is opened next may get its place.
    Closed,
}

/// A sink as [`StdSink`], which knows the file that its writer writes to, where it does. A sync that can't be made is a fault, and so is
/// each write where the writer was closed as the sink was made.
#[derive(Drop)]
pub struct FileSink<W: Write, F: OpenFile> {
    sink: StdSink<W>,
    disk: Disk<F>,
}

impl<W: Write, F: OpenFile> Model for FileSink<W, F> {
    ghost use Rattle.nx_io.specs.Readers.{Writing};

    ghost Value = { Writing };

    ghost view = { λ s. s.sink };
}

impl<W: Write, F: OpenFile + Drop> FileSink<W, F> {
    /// A sink that was sent nothing and has not failed yet, over a writer to what has this path.
    pub fn new<R: Files<File = F>>(rt: &R, writer: W, path: &str) -> FileSink<W, F>
        ensures { result ≡ record { contents = W.contents writer; sent = []; synced = 0; faults = 0 } }
    {
        FileSink {
            sink: StdSink::new(writer),
            disk: disk_of(rt, path),
        }
    }

    /// How often the sink has failed.
    pub fn faults(&self) -> u64
        ensures { result ≡ self.now.faults }
    {
        self.sink.faults()
    }
}

impl<W: Write, F: OpenFile> Sink for FileSink<W, F> {
    ghost sent = { λ s. s.sent };

    ghost synced = { λ s. s.synced };

    ghost faults = { λ s. s.faults };

    /// As of [`StdSink`].
    fn write(&mut self, piece: &[u8]) -> Put
        requires { 0 < length piece.now }
        ensures within { WritesWithin result piece.now }
        ensures bytes { Writes result self.old.sent self.new.sent piece.now }
        ensures synced { self.new.synced ≡ self.old.synced }
        ensures later { self.old.faults ≤ self.new.faults }
        ensures count { self.new.faults ≡ faults_after_write result self.old.faults }
        ensures handed { HandsTo result self.old.contents self.new.contents piece.now }
    {
        match self.disk {
            Disk::Closed => {
                self.sink.fail();
                Put::Failed
            }
            _ => self.sink.write(piece),
        }
    }

    /// As of any sink. A file's data goes to its disk; where there is none, nothing is done.
    fn sync(&mut self) -> Reach
        ensures sent { self.new.sent ≡ self.old.sent }
        ensures synced { self.new.synced ≡ synced_after result self.old.sent self.old.synced }
        ensures later { self.old.faults ≤ self.new.faults }
        ensures count { self.new.faults ≡ faults_after_reach result self.old.faults }
        ensures contents { self.new.contents ≡ self.old.contents }
    {
        match synced(&self.disk) {
            Ok(()) => self.sink.sync(),
            Err(_) => {
                self.sink.fail();
                Reach::Failed
            }
        }
    }
}

/// Where that lasts which is written to what has this path. A file is opened, and not changed.
fn disk_of<R: Files>(rt: &R, path: &str) -> Disk<R::File> {
    match fs::metadata(rt, path) {
        Ok(found) if !found.is_file() => Disk::Nowhere,
        Ok(_) => match opened(rt, path) {
            Ok(file) => Disk::File(file),
            Err(_) => Disk::Unknown,
        },
        Err(_) if is_missing(rt, path) => Disk::Closed,
        Err(_) => Disk::Unknown,
    }
}

/// Whether a folder is there that would have the path, which is not there.
fn is_missing<R: Files>(rt: &R, path: &str) -> bool {
    match path.rsplit_once('/') {
        Some((folder, _)) => fs::metadata(rt, folder).is_ok()
            && fs::symlink_metadata(rt, path).is_err(),
        None => false,
    }
}

/// A file, opened to write, or to read where its mode does not allow that: either serves for a sync.
fn opened<R: Files>(rt: &R, path: &str) -> io::Result<R::File> {
    match OpenOptions::new().write(true).open(rt, path) {
        Ok(file) => Ok(file),
        Err(_) => OpenOptions::new().read(true).open(rt, path),
    }
}

/// Brings the data of a file to its disk. It is tried again where a signal interrupts it.
fn synced<F: OpenFile>(disk: &Disk<F>) -> io::Result<()> {
    let file = match disk {
        Disk::Nowhere => return Ok(()),
        Disk::File(file) => file,
        Disk::Unknown | Disk::Closed => return Err(io::Error::from(ErrorKind::Unsupported)),
    };
    for _ in 0..u64::MAX {
        match file.sync_data() {
            Ok(()) => return Ok(()),
            Err(error) => {
                if error.kind() != ErrorKind::Interrupted {
                    return Err(error);
                }
            }
        }
    }
    Err(io::Error::from(ErrorKind::TimedOut))
}
