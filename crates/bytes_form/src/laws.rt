// What holds of the spellings of fields.
ghost use Rattle.std.specs.Prelude.{◌<◌, ◌^◌, ⊤, length};
ghost use Rattle.std.specs.Int.{Width, byte_len};
ghost use Rattle.bytes_form.specs.Fields.{number_field, flag_field, counted_field};
ghost use Rattle.bytes_form.specs.PrefixFree.{IsPrefixFree};

/// No number's spelling begins another one's of its width.
pub fn numbers_are_prefix_free()
    ensures { (w : Width) → IsPrefixFree (λ n. n < 256 ^ byte_len w) (number_field w) }
{}

/// No flag's spelling begins the other one's.
pub fn flags_are_prefix_free()
    ensures { IsPrefixFree (λ _. ⊤) flag_field }
{}

/// No spelling of bytes behind their length begins another one, where the length fits.
pub fn counted_bytes_are_prefix_free()
    ensures { (w : Width) → IsPrefixFree (λ bytes. length bytes < 256 ^ byte_len w) (counted_field w) }
{}
