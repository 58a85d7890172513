//! Small pictures and sounds, as the rules work them out: each function here states some, and its body
//! is empty.
ghost use Rattle.std.specs.Prelude.{◌≡◌, ◌++◌, [], ◌∷◌, pos, negsuc};
ghost use Rattle.mix_model.specs.Pictures.{picture_at};
ghost use Rattle.mix_model.specs.Encoding.{i420_of};
ghost use Rattle.mix_model.specs.Voices.{voices_in};
ghost use Rattle.mix_model.specs.Sounds.{track_sample};
ghost use Rattle.mix_model.specs.WorkedPictures.{two_of, greys, fade_begun, fade_one, fade_two};
ghost use Rattle.mix_model.specs.WorkedPictures.{fade_three, fade_four, turned_raster, multiplied};
ghost use Rattle.mix_model.specs.WorkedPictures.{red_square, two_tones, one_tone};

/// From red to blue in four frames.
pub fn a_fade_in_pictures()
    ensures begins { (picture_at fade_begun 0).rgba ≡ two_of 255 0 0 }
    ensures one { (picture_at fade_one 1).rgba ≡ two_of 191 0 64 }
    ensures two { (picture_at fade_two 2).rgba ≡ two_of 128 0 128 }
    ensures three { (picture_at fade_three 3).rgba ≡ two_of 64 0 191 }
    ensures ends { (picture_at fade_four 4).rgba ≡ two_of 0 0 255 }
{}

/// Of a raster that is scaled, turned by 90 degrees and half transparent, three by two pixels show the
/// end of its white pixel and the beginning of its red one.
pub fn a_raster_scaled_and_turned()
    ensures shown { (picture_at turned_raster 0).rgba
        ≡ greys (128 ∷ (0 ∷ (0 ∷ []))) ++ (128 ∷ (0 ∷ (0 ∷ (255 ∷ (greys (0 ∷ (0 ∷ []))))))) }
{}

/// Black takes the colour away, and white leaves it.
pub fn squares_multiply_red()
    ensures shown { (picture_at multiplied 0).rgba ≡ 0 ∷ (0 ∷ (0 ∷ (255 ∷ (255 ∷ (0 ∷ (0 ∷ (255 ∷ []))))))) }
{}

/// Red as I420, in hexadecimal 52 four times, 5a and f0.
pub fn red_as_i420()
    ensures payload { i420_of (picture_at red_square 0) ≡ 82 ∷ (82 ∷ (82 ∷ (82 ∷ (90 ∷ (240 ∷ []))))) }
{}

/// Two loud tones are held within sixteen bits, both ways.
pub fn two_loud_tones()
    ensures high { track_sample (voices_in two_tones) 0 (pos 0) ≡ pos 32767 }
    ensures low { track_sample (voices_in two_tones) 0 (pos 24) ≡ negsuc 32767 }
{}

/// A tone that two items show is heard once.
pub fn one_tone_of_two_items()
    ensures high { track_sample (voices_in one_tone) 5 (pos 0) ≡ pos 100 }
    ensures low { track_sample (voices_in one_tone) 5 (pos 24) ≡ negsuc 99 }
{}
