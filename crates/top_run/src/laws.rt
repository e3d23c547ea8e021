//! Laws of what a run loads. Each function does nothing: its contract is the law.

ghost use Rattle.std.specs.Prelude.{◌≡◌, Some};
ghost use Rattle.ask_files.specs.Files.{NamedFile};
ghost use Rattle.ask_files.specs.Loads.{IsRead};
ghost use Rattle.base_files.specs.Files.{Contents};
ghost use Rattle.base_files.specs.Loads.{LoadedFile};

/// Where the shelf tells its files, what is read of a file is its whole content.
pub fn read_is_whole()
    ensures { (files : Contents) (file : NamedFile) (load : LoadedFile) → IsRead (Some files) file load → files file.1 ≡ Some load.1 }
{}
