//! What the image of a module says of it.

ghost use Rattle.std.specs.Prelude.{◌≡◌, ℕ, List};
ghost use Rattle.mod_core.specs.declared.code.Module.{Module};
ghost use Rattle.mod_core.specs.Module.{IsModule};
ghost use Rattle.mod_core.specs.ModuleImage.{IsImageOfModule, module_image};

/// A law: what `encode` gives for a module is what `decode` reads as that module.
pub fn encoded_modules_are_read()
    ensures { (m : Module) → IsModule m → IsImageOfModule m (module_image m) }
{}

/// A law: words are the image of one module alone, whatever serial and entry words they carry; and so modules with the same
/// image are one.
pub fn images_are_of_one_module()
    ensures words { (words : List ℕ) (m n : Module) → IsModule m → IsModule n → IsImageOfModule m words → IsImageOfModule n words → m ≡ n }
    ensures images { (m n : Module) → IsModule m → IsModule n → module_image m ≡ module_image n → m ≡ n }
{}
