// Elements that are taken from the front of a list.
ghost use Rattle.std.specs.Prelude.{◌≡◌, [], ◌∷◌, IfSome, IfNone, vec_capacity};

/// Takes the first element out of a list, where there is one.
pub fn take_first<T>(list: &mut Vec<T>) -> Option<T>
    ensures some { IfSome result (λ first. list.old.items ≡ first ∷ list.new.items) }
    ensures none { IfNone result ((list.old.items ≡ []) × (list.new.items ≡ [])) }
    ensures room { vec_capacity list.new ≡ vec_capacity list.old }
{
    if list.is_empty() {
        return None;
    }
    Some(list.remove(0))
}
