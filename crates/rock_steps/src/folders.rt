//! What stands in a folder.
ghost use Rattle.std.specs.Prelude.{◌≡◌, IfSome, IsTrue};
ghost use Rattle.std.specs.Option.{option_map};
ghost use Rattle.rocks_text.specs.Paths.{below};
ghost use Rattle.rocks_text.specs.Texts.{is_file_path};
ghost use Rattle.rock_steps.specs.Steps.{is_in};

use rocks_text::FilePath;

/// The path from a folder on, where this path is below the folder.
pub fn below<'a>(folder: &str, path: &'a FilePath) -> Option<&'a str>
    ensures rest { option_map (λ rest. rest.now) result ≡ below folder.now path.now }
    ensures valid { IfSome result (λ rest. IsTrue (is_file_path rest.now)) }
{
    path.as_str().strip_prefix(folder)?.strip_prefix('/')
}

/// Whether the path is below the folder.
pub fn is_in(folder: &str, path: &FilePath) -> bool
    ensures { result ≡ is_in folder.now path.now }
{
    below(folder, path).is_some()
}
