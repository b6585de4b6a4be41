//! Laws of the fields of a job: reading undoes writing.
ghost use Rattle.std.specs.Prelude.{◌≡◌, ℕ, true, List, Some};
ghost use Rattle.std.specs.Option.{is_some, option_map};
ghost use Rattle.build_base.specs.Path.{path_field};
ghost use Rattle.build_base.specs.declared.fault.Place.{Place};
ghost use Rattle.job_fields.specs.Fields.{PLATFORM, ARCHES, TARGET, TAG, SKU, DEFINES, PCDS, FLASH, IMAGES, REPORT, job_fields, field_of};
ghost use Rattle.job_fields.specs.HasWords.{HasWords};
ghost use Rattle.job_fields.specs.Readings.{texts_in, name_in, file_in, arches_in, set_in, set_text, sets_in, images_in, is_job};
ghost use Rattle.job_fields.specs.Values.{is_setting};
ghost use Rattle.job_fields.specs.declared.job.Job.{Job};

/// What is read from the fields of a job that words give is the job.
pub fn fields_are_read()
    ensures platform { (job : Job) → HasWords job
        → path_field (field_of job PLATFORM) ≡ Some job.files.platform }
    ensures arches { (job : Job) → HasWords job → texts_in (field_of job ARCHES) ≡ job.arches }
    ensures target { (job : Job) → HasWords job
        → name_in (field_of job TARGET) ≡ job.names.target }
    ensures tag { (job : Job) → HasWords job → name_in (field_of job TAG) ≡ job.names.tag }
    ensures sku { (job : Job) → HasWords job → name_in (field_of job SKU) ≡ job.names.sku }
    ensures defines { (job : Job) → HasWords job
        → texts_in (field_of job DEFINES) ≡ job.settings.defines }
    ensures pcds { (job : Job) → HasWords job
        → texts_in (field_of job PCDS) ≡ job.settings.pcds }
    ensures flash { (job : Job) → HasWords job
        → file_in (field_of job FLASH) ≡ Some job.files.flash }
    ensures images { (job : Job) → HasWords job
        → images_in (field_of job IMAGES) ≡ Some job.images }
    ensures report { (job : Job) → HasWords job
        → file_in (field_of job REPORT) ≡ Some job.files.report }
{}

/// Each text of a job that words give has a reading.
pub fn fields_have_readings()
    ensures arches { (job : Job) → HasWords job
        → is_some (arches_in (field_of job ARCHES)) ≡ true }
    ensures pcds { (job : Job) (at : Place) → HasWords job
        → is_some (sets_in at (field_of job PCDS)) ≡ true }
    ensures job { (job : Job) → HasWords job → is_job (job_fields job) ≡ true }
{}

/// A value of a PCD that is read, written again, is its text.
pub fn settings_are_kept()
    ensures { (at : Place) (text : List ℕ) → is_setting text ≡ true
        → option_map set_text (set_in at text) ≡ Some text }
{}
