// The files that are open, each at its number.
use crate::{Fd, Host, Opened};
use std::fs::File;

// The number of the first file that is opened.
const FIRST: usize = 3;

// The first free place after those of the standard streams; the table's length where there is none.
fn free_place(files: &[Option<Opened>]) -> usize {
    for k in FIRST..files.len() {
        if files[k].is_none() {
            return k;
        }
    }
    files.len()
}

// Puts a file at a place, after as many empty places as are missing. Answers whether there was room.
fn put_at(files: &mut Vec<Option<Opened>>, place: usize, open: Opened) -> bool {
    for _ in 0..4usize {
        if files.len() <= place {
            if files.push(None).is_err() {
                return false;
            }
        }
    }
    match files.get_mut(place) {
        Some(slot) => {
            *slot = Some(open);
            true
        }
        None => false,
    }
}

impl Host {
    // Whether a number is that of a file that was opened.
    pub(crate) fn is_open(&self, fd: Fd) -> bool {
        if let Ok(files) = self.files.try_borrow() {
            if let Some(Some(_)) = files.get(fd.number) {
                return true;
            }
        }
        false
    }

    // The file of a number, which has none after that.
    pub(crate) fn taken(&self, fd: Fd) -> Option<Opened> {
        if let Ok(mut files) = self.files.try_borrow_mut() {
            if let Some(slot) = files.get_mut(fd.number) {
                return slot.take();
            }
        }
        None
    }

    // Keeps a file that is read at a place. Answers whether there was room.
    pub(crate) fn keep_at(&self, place: usize, file: File) -> bool {
        if let Ok(mut files) = self.files.try_borrow_mut() {
            let open = Opened {
                file,
                is_made: false,
            };
            if put_at(&mut *files, place, open) {
                return true;
            }
        }
        self.set(crate::ENOMEM);
        false
    }

    // Keeps a file at the first free place; nothing where there was no room.
    pub(crate) fn keep(&self, file: File, is_made: bool) -> Option<Fd> {
        if let Ok(mut files) = self.files.try_borrow_mut() {
            let place = free_place(files.as_slice()).max(FIRST);
            if put_at(&mut *files, place, Opened { file, is_made }) {
                return Some(Fd { number: place });
            }
        }
        self.set(crate::ENOMEM);
        None
    }
}
