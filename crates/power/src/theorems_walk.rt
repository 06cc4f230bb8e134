// What holds of every board and of every walk over it, each a theorem that a contract names.
ghost use Rattle.power.specs.Sound.{StepsKeepSound, UsersKeepSound, SoundServes};
ghost use Rattle.power.specs.Walk.{DownGoesOn, UpGoesOn, DownSteps, UpSteps};
ghost use Rattle.power.specs.Cost.{CostIsBounded, EachAskingPays};

pub fn steps_keep_sound() -> u8
    ensures { StepsKeepSound }
{
    0
}

pub fn users_keep_sound() -> u8
    ensures { UsersKeepSound }
{
    0
}

pub fn sound_serves() -> u8
    ensures { SoundServes }
{
    0
}

pub fn next_step_is_allowed() -> u8
    ensures { (DownGoesOn) × (UpGoesOn) }
{
    0
}

pub fn sweeps_go_on() -> u8
    ensures { (DownSteps) × (UpSteps) }
{
    0
}

pub fn each_asking_pays() -> u8
    ensures { (CostIsBounded) × (EachAskingPays) }
{
    0
}
