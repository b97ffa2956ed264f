// Laws on triplets.
ghost use Rattle.std.specs.Prelude.{ℕ, List, ◌≡◌};
ghost use Rattle.irr_space.specs.Operation.{Operation};
ghost use Rattle.irr_text.specs.TripletText.{triplet_text};
ghost use Rattle.irr_triplet.specs.Readable.{IsReadable};
ghost use Rattle.irr_triplet.specs.TripletFault.{IsFault, IsTextOf};
ghost use Rattle.irr_triplet.specs.declared.reading.TripletError.{TripletError};

/// A printed triplet is that of one operation at most, among those that can be read.
pub fn unique_triplets()
    ensures { (g h : Operation) → IsReadable g → IsReadable h → triplet_text g ≡ triplet_text h → g ≡ h }
{}

/// The printed triplet of an operation that can be read is a text of that operation, with no fault: so it is
/// read again as the same operation.
pub fn printed_triplets_are_read()
    ensures { (g : Operation) → IsReadable g → IsTextOf (triplet_text g) g }
{}

/// A text writes one operation at most, or has one fault at most, and never both.
pub fn one_operation_is_written()
    ensures one { (text : List ℕ) (g h : Operation) → IsTextOf text g → IsTextOf text h → g ≡ h }
    ensures fault { (text : List ℕ) (e f : TripletError) → IsFault text e → IsFault text f → e ≡ f }
    ensures either { (text : List ℕ) (g : Operation) (e : TripletError) → IsTextOf text g → ¬ (IsFault text e) }
{}
