//! Folders of a disk that are open, and what is done in them.
//!
//! A path may lead elsewhere from one moment to the next, if others may write in a folder on the way. An open folder stays the folder that was
//! opened. std has no calls that take an open folder and a name in it (openat, mkdirat, renameat). So a name in a folder is given to the
//! system as `/proc/self/fd/N/NAME`, where N is the number of the open folder: the system takes that for the name in this folder. If there
//! is no /proc, the path of the folder stands in the place of `/proc/self/fd/N`.
//!
//! No link is followed, except on the way to the first folder. Only folders and regular files are opened, so that a fifo or a device in the
//! way holds nobody up. std opens no file without following a link (O_NOFOLLOW) and without waiting for the other end of a fifo
//! (O_NONBLOCK). So what has a name is looked at before it is opened, and compared with what is open then. Whoever may write in the folder
//! can put a fifo there between the two, and have the opening wait.
#![tactic(auto)]

mod disk;
mod fault;
mod file_id;
mod folder;
mod kept;
mod names;
mod reading;
mod ways;
mod writing;

pub use disk::Disk;
pub use fault::FolderFault;
pub use file_id::id_of;
pub use folder::Folder;
pub use kept::Kept;
