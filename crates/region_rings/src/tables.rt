ghost use Rattle.std.specs.Prelude.{◌≡◌, ◌<◌, length, slice_index_or, slice_set};

pub(crate) fn number_at(numbers: &[usize], place: usize) -> usize
    requires { place < length numbers.now }
    ensures { result ≡ slice_index_or numbers.now place 0 }
{
    numbers[place]
}

pub(crate) fn set_number(numbers: &mut Vec<usize>, place: usize, number: usize)
    requires { place < length numbers.old.items }
    ensures { numbers.new.items ≡ slice_set numbers.old.items place number }
{
    numbers[place] = number;
}
