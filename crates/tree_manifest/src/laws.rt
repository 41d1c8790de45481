//! Laws of manifests, as contracts of functions that do nothing.
ghost use Rattle.std.specs.Prelude.{◌≡◌};
ghost use Rattle.manifest_text.specs.Text.{manifest_text};
ghost use Rattle.manifest_text.specs.Views.{IsView};
ghost use Rattle.manifest_text.specs.declared.view.ManifestView.{ManifestView};

/// Two views with one text are equal.
pub fn one_view()
    ensures { (left right : ManifestView) → IsView left → IsView right
        → manifest_text left ≡ manifest_text right → left ≡ right }
{}
