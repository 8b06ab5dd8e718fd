// What is kept of files, where a file comes or goes.
ghost use Rattle.std.specs.Prelude.{◌≡◌, ◌≤◌, ◌<◌, length, vec_capacity, vec_len};
ghost use Rattle.desk_memo.specs.Readings.{blank_in, without};
ghost use Rattle.desk_memo.specs.ShownReadings.{IsWithin};

use desk_files::is_named;
use source_file::SourceFile;

// A blank at a place, or behind all, where there is room for it.
pub(crate) fn put_blank<T: Drop>(kept: &mut Vec<T>, place: Option<usize>, blank: T)
    requires within { IsWithin place (vec_len kept.old) }
    requires room { vec_len kept.old < vec_capacity kept.old }
    ensures { kept.new.items ≡ blank_in blank place kept.old.items }
{
    match place {
        None => {
            if let Err(failed) = kept.push(blank) {
                drop(failed);
            }
        }
        Some(place) => {
            if let Err(failed) = kept.insert(place, blank) {
                drop(failed);
            }
        }
    }
}

// What is kept of the files of a name goes. Places are passed from the end, so that those that are
// still to come stay.
pub(crate) fn remove_named<T: Drop>(kept: &mut Vec<T>, files: &[SourceFile], name: &[u8])
    requires { length files.now ≡ vec_len kept.old }
    ensures items { kept.new.items ≡ without name.now files.now kept.old.items }
    ensures len { vec_len kept.new ≤ vec_len kept.old }
    ensures capacity { vec_capacity kept.new ≡ vec_capacity kept.old }
{
    let mut place = files.len();
    while place > 0 {
        place -= 1;
        if is_named(&files[place], name) {
            drop(kept.remove(place));
        }
    }
}
