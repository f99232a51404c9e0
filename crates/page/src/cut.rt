// The theorem by which the program may stop reading a file one byte past its block's limit. It is the contract of a function, which has
// nothing to do: a check that passes has proved it.
ghost use Rattle.page.specs.Cut.{CutFilesKeepTheirText};

pub fn cut_files_keep_their_text()
    ensures { CutFilesKeepTheirText }
{}
